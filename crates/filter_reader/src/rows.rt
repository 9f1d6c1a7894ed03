//! Worked rows of the definitions: what they come to on small examples. The functions do nothing.
ghost use Rattle.std.specs.Prelude.{◌≡◌, ◌∷◌, ◌++◌, [], ℕ, List, true, Some, None, Ok, Err, map, codes, Result};
ghost use Rattle.filter_reader.specs.Headline.FilterList.{list_of};
ghost use Rattle.filter_reader.specs.Headline.RuleLine.{SpelledRule, rule_line};
ghost use Rattle.filter_reader.specs.Rows.{bad_lines, flagged_line, one, refused, refused_by, spelled_by, spelled_ports, web_sets, with_ports, with_protocol};
ghost use Rattle.filter_reader.specs.declared.reason.Reason.{Reason};
ghost use Rattle.filter_reader.specs.declared.reason.Reason.TheVariants.{NoAt, TooManyRules, PortOrder};

/// The first reason of each bad line.
pub fn worked_reasons()
    ensures lines { map spelled_by bad_lines ≡ map refused_by bad_lines }
    ensures too_many { rule_line 65536 (128 ∷ []) ≡ Err TooManyRules }
{}

/// What port columns with several ranges come to: the ports in one of them.
pub fn worked_ports()
    ensures touching { rule_line 0 (with_ports (codes "443 : 443 , 80 : 80,81 : 90")) ≡ spelled_ports (one 80 90 ++ one 443 443) }
    ensures whole { rule_line 0 (with_ports (codes "0 : 9,10 : 65535")) ≡ spelled_ports (one 0 65535) }
{}

/// A rule without a decision word, and flagged.
pub fn worked_flags()
    ensures { list_of flagged_line ≡ Ok (record { rules = record { sets = web_sets; decision = codes "#1" } ∷ []; flagged = 1 }) }
{}

/// Lines that are skipped, which count as lines: empty, blank, a comment, and a carriage return alone.
pub fn worked_skips()
    ensures { list_of (10 ∷ 32 ∷ 9 ∷ 10 ∷ codes " # @" ++ 128 ∷ 10 ∷ 13 ∷ 10 ∷ 13 ∷ 13 ∷ []) ≡ refused 5 NoAt }
{}

/// The first bad line of a text.
pub fn worked_first()
    ensures { list_of (with_protocol (codes "0x06/0xFF accept") ++ 10 ∷ with_ports (codes "80 : 79") ++ 10 ∷ codes "x") ≡ refused 2 PortOrder }
{}
