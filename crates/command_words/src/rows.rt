//! Worked rows of the definitions: what words spell. The functions do nothing.
#![tactic(auto, unfolding(crate::specs::Commands::forms, crate::specs::Spelling::command_of, crate::specs::Items::reading_of, crate::specs::Options::size_in, crate::specs::Options::width_in, crate::specs::Orders::order_wanted, crate::specs::Numbers::number_between, text_lines::specs::Headline::Numbers::short_number, text_lines::specs::Headline::Numbers::number_within, crate::specs::Questions::span_written, crate::specs::Questions::span_asked, crate::specs::Questions::is_decision))]

ghost use Rattle.std.specs.Prelude.{◌≡◌, ◌∷◌, [], ◌++◌, Some, None, codes};
ghost use Rattle.std.specs.List.{flat_map};
ghost use Rattle.field_boxes.specs.Headline.Fields.{stated};
ghost use Rattle.command_words.specs.Commands.{Apply, Arrange, Audit, Cert, Compile, Expand, Check, Drive, Dump, Equiv, Gen, Make, Patch, Place, Prove, Query, Selfrun, Session, Shorten, Trim, Verify};
ghost use Rattle.command_words.specs.Orders.{Best, In};
ghost use Rattle.command_words.specs.Questions.{span};
ghost use Rattle.command_words.specs.Sessions.{CompiledIn, Shortened};
ghost use Rattle.command_words.specs.Spelling.{command_of};
ghost use Rattle.command_words.specs.Swaps.{InPlace, Whole};
ghost use Rattle.command_words.specs.Usage.{usage_text};

/// The first word is the name of a command, whole.
pub fn worked_names()
    ensures no_word { command_of [] ≡ None }
    ensures no_list { command_of (codes "compile" ∷ []) ≡ None }
    ensures shortened { command_of (codes "comp" ∷ codes "in" ∷ []) ≡ None }
    ensures help { command_of (codes "--help" ∷ []) ≡ None }
    ensures ended_before { command_of (codes "--" ∷ codes "compile" ∷ codes "in" ∷ []) ≡ None }
    ensures two_files { command_of (codes "cert" ∷ codes "list" ∷ codes "table" ∷ []) ≡ Some (Cert (codes "list") (codes "table")) }
    ensures three_files { command_of (codes "check" ∷ codes "list" ∷ codes "table" ∷ codes "rows" ∷ []) ≡ Some (Check (codes "list") (codes "table") (codes "rows")) }
{}

/// An option stands anywhere after the name. Its value is the next word, whatever it is, or all that follows
/// the first `=`.
pub fn worked_options()
    ensures no_option { command_of (codes "compile" ∷ codes "in" ∷ []) ≡ Some (Make Compile (record { limit = 262144; slot = 144 }) (codes "in")) }
    ensures next_word { command_of (codes "compile" ∷ codes "--limit" ∷ codes "5" ∷ codes "in" ∷ []) ≡ Some (Make Compile (record { limit = 5; slot = 144 }) (codes "in")) }
    ensures same_word { command_of (codes "compile" ∷ codes "--limit=5" ∷ codes "in" ∷ []) ≡ Some (Make Compile (record { limit = 5; slot = 144 }) (codes "in")) }
    ensures last { command_of (codes "compile" ∷ codes "in" ∷ codes "--limit" ∷ codes "5" ∷ []) ≡ Some (Make Compile (record { limit = 5; slot = 144 }) (codes "in")) }
    ensures both { command_of (codes "expand" ∷ codes "--slot" ∷ codes "104" ∷ codes "in" ∷ codes "--limit=7" ∷ []) ≡ Some (Make Expand (record { limit = 7; slot = 104 }) (codes "in")) }
    ensures ends_as_value { command_of (codes "compile" ∷ codes "--limit" ∷ codes "--" ∷ codes "in" ∷ []) ≡ None }
    ensures option_as_value { command_of (codes "compile" ∷ codes "--slot" ∷ codes "--slot=104" ∷ codes "in" ∷ []) ≡ None }
    ensures two_signs { command_of (codes "compile" ∷ codes "--limit==5" ∷ codes "in" ∷ []) ≡ None }
    ensures two_values { command_of (codes "compile" ∷ codes "--limit=5=5" ∷ codes "in" ∷ []) ≡ None }
    ensures empty_value { command_of (codes "compile" ∷ codes "--limit=" ∷ codes "in" ∷ []) ≡ None }
    ensures no_value { command_of (codes "compile" ∷ codes "in" ∷ codes "--limit" ∷ []) ≡ None }
    ensures given_twice { command_of (codes "compile" ∷ codes "--limit" ∷ codes "5" ∷ codes "--limit" ∷ codes "5" ∷ codes "in" ∷ []) ≡ None }
    ensures given_in_both_ways { command_of (codes "compile" ∷ codes "--limit=5" ∷ codes "--limit" ∷ codes "5" ∷ codes "in" ∷ []) ≡ None }
{}

/// An order is five digits, each from 0 to 4 once, or `best`, which is usual.
pub fn worked_orders()
    ensures left_out { command_of (codes "arrange" ∷ codes "in" ∷ []) ≡ Some (Make (Arrange Best) (record { limit = 262144; slot = 144 }) (codes "in")) }
    ensures best { command_of (codes "arrange" ∷ codes "--order=best" ∷ codes "in" ∷ []) ≡ Some (Make (Arrange Best) (record { limit = 262144; slot = 144 }) (codes "in")) }
    ensures digits { command_of (codes "arrange" ∷ codes "--order" ∷ codes "41032" ∷ codes "in" ∷ []) ≡ Some (Make (Arrange (In (4 ∷ 1 ∷ 0 ∷ 3 ∷ 2 ∷ []))) (record { limit = 262144; slot = 144 }) (codes "in")) }
    ensures twice { command_of (codes "arrange" ∷ codes "--order" ∷ codes "01233" ∷ codes "in" ∷ []) ≡ None }
    ensures no_field { command_of (codes "arrange" ∷ codes "--order" ∷ codes "01235" ∷ codes "in" ∷ []) ≡ None }
    ensures four { command_of (codes "arrange" ∷ codes "--order" ∷ codes "0123" ∷ codes "in" ∷ []) ≡ None }
    ensures no_digit { command_of (codes "arrange" ∷ codes "--order" ∷ codes "/1234" ∷ codes "in" ∷ []) ≡ None }
    ensures empty { command_of (codes "arrange" ∷ codes "--order=" ∷ codes "in" ∷ []) ≡ None }
    ensures other_command { command_of (codes "compile" ∷ codes "--order" ∷ codes "01234" ∷ codes "in" ∷ []) ≡ None }
{}

/// A short table is searched for, beside the composition in an order where one is given; a table is trimmed as it stands.
pub fn worked_short_tables()
    ensures no_order { command_of (codes "shorten" ∷ codes "in" ∷ []) ≡ Some (Make (Shorten None) (record { limit = 262144; slot = 144 }) (codes "in")) }
    ensures best { command_of (codes "shorten" ∷ codes "--order" ∷ codes "best" ∷ codes "in" ∷ []) ≡ Some (Make (Shorten (Some Best)) (record { limit = 262144; slot = 144 }) (codes "in")) }
    ensures all { command_of (codes "shorten" ∷ codes "--limit=9" ∷ codes "in" ∷ codes "--slot=288" ∷ codes "--order=01243" ∷ []) ≡ Some (Make (Shorten (Some (In (0 ∷ 1 ∷ 2 ∷ 4 ∷ 3 ∷ [])))) (record { limit = 9; slot = 288 }) (codes "in")) }
    ensures no_list { command_of (codes "shorten" ∷ codes "--order" ∷ codes "best" ∷ []) ≡ None }
    ensures table { command_of (codes "trim" ∷ codes "table" ∷ []) ≡ Some (Trim (codes "table")) }
    ensures two_tables { command_of (codes "trim" ∷ codes "a" ∷ codes "b" ∷ []) ≡ None }
    ensures no_option { command_of (codes "trim" ∷ codes "--slot" ∷ codes "104" ∷ codes "table" ∷ []) ≡ None }
{}

/// A table is placed in so many slots, which have to be said; a memory is patched to a table, a plan is applied to it, and it is
/// dumped as it stands.
pub fn worked_memories()
    ensures placed { command_of (codes "place" ∷ codes "--slots" ∷ codes "8" ∷ codes "table" ∷ []) ≡ Some (Place 8 (codes "table")) }
    ensures no_slots { command_of (codes "place" ∷ codes "table" ∷ []) ≡ None }
    ensures none { command_of (codes "place" ∷ codes "--slots=0" ∷ codes "table" ∷ []) ≡ None }
    ensures width { command_of (codes "place" ∷ codes "--slots=8" ∷ codes "--slot=144" ∷ codes "table" ∷ []) ≡ None }
    ensures patched { command_of (codes "patch" ∷ codes "memory" ∷ codes "table" ∷ []) ≡ Some (Patch (codes "memory") (codes "table")) }
    ensures applied { command_of (codes "apply" ∷ codes "memory" ∷ codes "plan" ∷ []) ≡ Some (Apply (codes "memory") (codes "plan")) }
    ensures same { command_of (codes "apply" ∷ codes "memory" ∷ codes "memory" ∷ []) ≡ None }
    ensures dumped { command_of (codes "dump" ∷ codes "memory" ∷ []) ≡ Some (Dump (codes "memory")) }
    ensures two { command_of (codes "dump" ∷ codes "a" ∷ codes "b" ∷ []) ≡ None }
{}

/// A list is verified against a table, and a proof of what they have to do with one another is made of the same words.
pub fn worked_proofs()
    ensures verified { command_of (codes "verify" ∷ codes "list" ∷ codes "table" ∷ []) ≡ Some (Verify (codes "list") (codes "table")) }
    ensures proved { command_of (codes "prove" ∷ codes "list" ∷ codes "table" ∷ []) ≡ Some (Prove (codes "list") (codes "table")) }
    ensures same { command_of (codes "verify" ∷ codes "list" ∷ codes "list" ∷ []) ≡ None }
    ensures one { command_of (codes "prove" ∷ codes "list" ∷ []) ≡ None }
    ensures no_option { command_of (codes "verify" ∷ codes "--slot" ∷ codes "104" ∷ codes "list" ∷ codes "table" ∷ []) ≡ None }
{}

/// The first `--` that is no value ends the options. Before it a word with a `-` in front is an option of the
/// command or `-` alone.
pub fn worked_ends()
    ensures ended { command_of (codes "compile" ∷ codes "--limit" ∷ codes "005" ∷ codes "--" ∷ codes "in" ∷ []) ≡ Some (Make Compile (record { limit = 5; slot = 144 }) (codes "in")) }
    ensures option_behind { command_of (codes "compile" ∷ codes "--" ∷ codes "--limit" ∷ []) ≡ Some (Make Compile (record { limit = 262144; slot = 144 }) (codes "--limit")) }
    ensures dashed_behind { command_of (codes "compile" ∷ codes "--" ∷ codes "-x" ∷ []) ≡ Some (Make Compile (record { limit = 262144; slot = 144 }) (codes "-x")) }
    ensures end_behind { command_of (codes "compile" ∷ codes "--" ∷ codes "--" ∷ []) ≡ Some (Make Compile (record { limit = 262144; slot = 144 }) (codes "--")) }
    ensures end_last { command_of (codes "compile" ∷ codes "in" ∷ codes "--" ∷ []) ≡ Some (Make Compile (record { limit = 262144; slot = 144 }) (codes "in")) }
    ensures dashed { command_of (codes "compile" ∷ codes "-x" ∷ codes "in" ∷ []) ≡ None }
    ensures dashed_alone { command_of (codes "compile" ∷ codes "-x" ∷ []) ≡ None }
    ensures shortened_option { command_of (codes "compile" ∷ codes "--lim" ∷ codes "5" ∷ codes "in" ∷ []) ≡ None }
    ensures longer_option { command_of (codes "compile" ∷ codes "--limits" ∷ codes "5" ∷ codes "in" ∷ []) ≡ None }
    ensures other_option { command_of (codes "equiv" ∷ codes "--limit" ∷ codes "5" ∷ codes "a" ∷ codes "b" ∷ []) ≡ None }
    ensures help_later { command_of (codes "compile" ∷ codes "--help" ∷ codes "in" ∷ []) ≡ None }
{}

/// Every other word is a file word, the empty one too, and `-` is standard input. There are as many as the
/// command has, and no two are equal.
pub fn worked_files()
    ensures empty { command_of (codes "compile" ∷ [] ∷ []) ≡ Some (Make Compile (record { limit = 262144; slot = 144 }) []) }
    ensures standard_input { command_of (codes "compile" ∷ codes "-" ∷ []) ≡ Some (Make Compile (record { limit = 262144; slot = 144 }) (codes "-")) }
    ensures one_standard_input { command_of (codes "equiv" ∷ codes "-" ∷ codes "b" ∷ []) ≡ Some (Equiv (codes "-") (codes "b")) }
    ensures two_standard_inputs { command_of (codes "equiv" ∷ codes "-" ∷ codes "-" ∷ []) ≡ None }
    ensures equal_files { command_of (codes "equiv" ∷ codes "a" ∷ codes "a" ∷ []) ≡ None }
    ensures one_too_many { command_of (codes "compile" ∷ codes "a" ∷ codes "b" ∷ []) ≡ None }
    ensures one_too_few { command_of (codes "check" ∷ codes "a" ∷ codes "b" ∷ []) ≡ None }
{}

/// A script is run over one to eight tables, and the number of slots must be there.
pub fn worked_scripts()
    ensures one_table { command_of (codes "drive" ∷ codes "--slots" ∷ codes "4" ∷ codes "s" ∷ codes "t" ∷ []) ≡ Some (Drive 4 (codes "s") (codes "t" ∷ [])) }
    ensures eight_tables { command_of (codes "drive" ∷ codes "s" ∷ codes "1" ∷ codes "2" ∷ codes "3" ∷ codes "4" ∷ codes "5" ∷ codes "6" ∷ codes "7" ∷ codes "8" ∷ codes "--slots=262144" ∷ []) ≡ Some (Drive 262144 (codes "s") (codes "1" ∷ codes "2" ∷ codes "3" ∷ codes "4" ∷ codes "5" ∷ codes "6" ∷ codes "7" ∷ codes "8" ∷ [])) }
    ensures nine_tables { command_of (codes "drive" ∷ codes "--slots" ∷ codes "4" ∷ codes "s" ∷ codes "1" ∷ codes "2" ∷ codes "3" ∷ codes "4" ∷ codes "5" ∷ codes "6" ∷ codes "7" ∷ codes "8" ∷ codes "9" ∷ []) ≡ None }
    ensures no_table { command_of (codes "drive" ∷ codes "--slots" ∷ codes "4" ∷ codes "s" ∷ []) ≡ None }
    ensures no_slots { command_of (codes "drive" ∷ codes "s" ∷ codes "t" ∷ []) ≡ None }
    ensures equal_tables { command_of (codes "drive" ∷ codes "--slots" ∷ codes "4" ∷ codes "s" ∷ codes "t" ∷ codes "t" ∷ []) ≡ None }
    ensures script_as_table { command_of (codes "drive" ∷ codes "--slots" ∷ codes "4" ∷ codes "s" ∷ codes "s" ∷ []) ≡ None }
    ensures none_of_the_slots { command_of (codes "drive" ∷ codes "--slots" ∷ codes "0" ∷ codes "s" ∷ codes "t" ∷ []) ≡ None }
{}

/// A session has a script and a list, and the number of slots must be there.
pub fn worked_sessions()
    ensures usual { command_of (codes "session" ∷ codes "--slots" ∷ codes "4" ∷ codes "s" ∷ codes "in" ∷ []) ≡ Some (Session (record { slots = 4; sizes = record { limit = 262144; slot = 144 }; making = CompiledIn stated; swap = Whole }) (codes "s") (codes "in")) }
    ensures all { command_of (codes "session" ∷ codes "--limit=1" ∷ codes "--slot" ∷ codes "104" ∷ codes "s" ∷ codes "in" ∷ codes "--slots=262144" ∷ []) ≡ Some (Session (record { slots = 262144; sizes = record { limit = 1; slot = 104 }; making = CompiledIn stated; swap = Whole }) (codes "s") (codes "in")) }
    ensures in_place { command_of (codes "session" ∷ codes "--slots" ∷ codes "4" ∷ codes "--swap" ∷ codes "patch" ∷ codes "s" ∷ codes "in" ∷ []) ≡ Some (Session (record { slots = 4; sizes = record { limit = 262144; slot = 144 }; making = CompiledIn stated; swap = InPlace }) (codes "s") (codes "in")) }
    ensures in_an_order { command_of (codes "session" ∷ codes "--order" ∷ codes "41032" ∷ codes "--slots" ∷ codes "4" ∷ codes "s" ∷ codes "in" ∷ []) ≡ Some (Session (record { slots = 4; sizes = record { limit = 262144; slot = 144 }; making = CompiledIn (4 ∷ 1 ∷ 0 ∷ 3 ∷ 2 ∷ []); swap = Whole }) (codes "s") (codes "in")) }
    ensures by_compilation { command_of (codes "session" ∷ codes "--slots" ∷ codes "4" ∷ codes "--by=compile" ∷ codes "--order" ∷ codes "41032" ∷ codes "s" ∷ codes "in" ∷ []) ≡ Some (Session (record { slots = 4; sizes = record { limit = 262144; slot = 144 }; making = CompiledIn (4 ∷ 1 ∷ 0 ∷ 3 ∷ 2 ∷ []); swap = Whole }) (codes "s") (codes "in")) }
    ensures shortened { command_of (codes "session" ∷ codes "--slots" ∷ codes "4" ∷ codes "s" ∷ codes "--by" ∷ codes "shorten" ∷ codes "--swap=patch" ∷ codes "in" ∷ []) ≡ Some (Session (record { slots = 4; sizes = record { limit = 262144; slot = 144 }; making = Shortened; swap = InPlace }) (codes "s") (codes "in")) }
    ensures sought_order { command_of (codes "session" ∷ codes "--order=best" ∷ codes "--slots" ∷ codes "4" ∷ codes "s" ∷ codes "in" ∷ []) ≡ None }
    ensures shortened_in_an_order { command_of (codes "session" ∷ codes "--by" ∷ codes "shorten" ∷ codes "--order" ∷ codes "41032" ∷ codes "--slots" ∷ codes "4" ∷ codes "s" ∷ codes "in" ∷ []) ≡ None }
    ensures other_method { command_of (codes "session" ∷ codes "--by" ∷ codes "arrange" ∷ codes "--slots" ∷ codes "4" ∷ codes "s" ∷ codes "in" ∷ []) ≡ None }
    ensures no_way { command_of (codes "session" ∷ codes "--slots" ∷ codes "4" ∷ codes "--swap" ∷ codes "block" ∷ codes "s" ∷ codes "in" ∷ []) ≡ None }
    ensures no_slots { command_of (codes "session" ∷ codes "s" ∷ codes "in" ∷ []) ≡ None }
    ensures no_list { command_of (codes "session" ∷ codes "--slots" ∷ codes "4" ∷ codes "s" ∷ []) ≡ None }
    ensures equal_files { command_of (codes "session" ∷ codes "--slots" ∷ codes "4" ∷ codes "s" ∷ codes "s" ∷ []) ≡ None }
    ensures stated_order { command_of (codes "session" ∷ codes "--slots" ∷ codes "4" ∷ codes "--order" ∷ codes "01234" ∷ codes "s" ∷ codes "in" ∷ []) ≡ Some (Session (record { slots = 4; sizes = record { limit = 262144; slot = 144 }; making = CompiledIn stated; swap = Whole }) (codes "s") (codes "in")) }
{}

/// A number has one to ten digits and lies in its range. Two equal numbers may stand together.
pub fn worked_numbers()
    ensures ten_digits { command_of (codes "compile" ∷ codes "--limit" ∷ codes "0000000005" ∷ codes "in" ∷ []) ≡ Some (Make Compile (record { limit = 5; slot = 144 }) (codes "in")) }
    ensures eleven_digits { command_of (codes "compile" ∷ codes "--limit" ∷ codes "00000000005" ∷ codes "in" ∷ []) ≡ None }
    ensures zero { command_of (codes "compile" ∷ codes "--limit" ∷ codes "0" ∷ codes "in" ∷ []) ≡ None }
    ensures greatest_limit { command_of (codes "compile" ∷ codes "--limit" ∷ codes "262144" ∷ codes "in" ∷ []) ≡ Some (Make Compile (record { limit = 262144; slot = 144 }) (codes "in")) }
    ensures above_the_limit { command_of (codes "compile" ∷ codes "--limit" ∷ codes "262145" ∷ codes "in" ∷ []) ≡ None }
    ensures sign { command_of (codes "compile" ∷ codes "--limit" ∷ codes "+5" ∷ codes "in" ∷ []) ≡ None }
    ensures blank { command_of (codes "compile" ∷ codes "--limit" ∷ codes "5 " ∷ codes "in" ∷ []) ≡ None }
    ensures narrow { command_of (codes "compile" ∷ codes "--slot" ∷ codes "104" ∷ codes "in" ∷ []) ≡ Some (Make Compile (record { limit = 262144; slot = 104 }) (codes "in")) }
    ensures usual { command_of (codes "compile" ∷ codes "--slot" ∷ codes "0144" ∷ codes "in" ∷ []) ≡ Some (Make Compile (record { limit = 262144; slot = 144 }) (codes "in")) }
    ensures wide { command_of (codes "compile" ∷ codes "--slot=288" ∷ codes "in" ∷ []) ≡ Some (Make Compile (record { limit = 262144; slot = 288 }) (codes "in")) }
    ensures no_width { command_of (codes "compile" ∷ codes "--slot" ∷ codes "100" ∷ codes "in" ∷ []) ≡ None }
    ensures greatest_numbers { command_of (codes "gen" ∷ codes "2147483647" ∷ codes "65536" ∷ []) ≡ Some (Gen 2147483647 65536) }
    ensures least_numbers { command_of (codes "selfrun" ∷ codes "0" ∷ codes "0" ∷ []) ≡ Some (Selfrun 0 0) }
    ensures equal_numbers { command_of (codes "gen" ∷ codes "5" ∷ codes "5" ∷ []) ≡ Some (Gen 5 5) }
    ensures behind_the_end { command_of (codes "gen" ∷ codes "--" ∷ codes "1" ∷ codes "1" ∷ []) ≡ Some (Gen 1 1) }
    ensures seed_too_great { command_of (codes "gen" ∷ codes "2147483648" ∷ codes "0" ∷ []) ≡ None }
    ensures too_many_rules { command_of (codes "gen" ∷ codes "1" ∷ codes "65537" ∷ []) ≡ None }
    ensures empty_number { command_of (codes "gen" ∷ [] ∷ codes "5" ∷ []) ≡ None }
    ensures one_number { command_of (codes "gen" ∷ codes "1" ∷ []) ≡ None }
    ensures three_numbers { command_of (codes "gen" ∷ codes "1" ∷ codes "2" ∷ codes "3" ∷ []) ≡ None }
    ensures standard_input_as_number { command_of (codes "gen" ∷ codes "-" ∷ codes "1" ∷ []) ≡ None }
{}

/// A list is asked inside five spans, each written as `*` or by its ends, for a decision word, a rule's own name or
/// `miss`. These words are no file words, and may be equal.
pub fn worked_questions()
    ensures all { command_of (codes "query" ∷ codes "in" ∷ codes "*" ∷ codes "*" ∷ codes "*" ∷ codes "*" ∷ codes "*" ∷ codes "accept" ∷ [])
        ≡ Some (Query (codes "in") (span 0 4294967295 ∷ span 0 4294967295 ∷ span 0 65535 ∷ span 0 65535 ∷ span 0 255 ∷ []) (Some (codes "accept"))) }
    ensures spans { command_of (codes "query" ∷ codes "in" ∷ codes "1-2" ∷ codes "0-4294967295" ∷ codes "007-7" ∷ codes "0-0" ∷ codes "255-255" ∷ codes "miss" ∷ [])
        ≡ Some (Query (codes "in") (span 1 2 ∷ span 0 4294967295 ∷ span 7 7 ∷ span 0 0 ∷ span 255 255 ∷ []) None) }
    ensures own_name { command_of (codes "query" ∷ codes "in" ∷ codes "*" ∷ codes "*" ∷ codes "*" ∷ codes "*" ∷ codes "0-7" ∷ codes "#65536" ∷ [])
        ≡ Some (Query (codes "in") (span 0 4294967295 ∷ span 0 4294967295 ∷ span 0 65535 ∷ span 0 65535 ∷ span 0 7 ∷ []) (Some (codes "#65536"))) }
    ensures upside_down { command_of (codes "query" ∷ codes "in" ∷ codes "*" ∷ codes "*" ∷ codes "*" ∷ codes "*" ∷ codes "9-8" ∷ codes "deny" ∷ []) ≡ None }
    ensures too_great { command_of (codes "query" ∷ codes "in" ∷ codes "*" ∷ codes "*" ∷ codes "*" ∷ codes "*" ∷ codes "0-256" ∷ codes "deny" ∷ []) ≡ None }
    ensures one_number { command_of (codes "query" ∷ codes "in" ∷ codes "*" ∷ codes "*" ∷ codes "*" ∷ codes "*" ∷ codes "6" ∷ codes "deny" ∷ []) ≡ None }
    ensures leading_zero { command_of (codes "query" ∷ codes "in" ∷ codes "*" ∷ codes "*" ∷ codes "*" ∷ codes "*" ∷ codes "*" ∷ codes "#01" ∷ []) ≡ None }
    ensures no_rule { command_of (codes "query" ∷ codes "in" ∷ codes "*" ∷ codes "*" ∷ codes "*" ∷ codes "*" ∷ codes "*" ∷ codes "#65537" ∷ []) ≡ None }
    ensures no_word { command_of (codes "query" ∷ codes "in" ∷ codes "*" ∷ codes "*" ∷ codes "*" ∷ codes "*" ∷ codes "*" ∷ codes "a b" ∷ []) ≡ None }
    ensures no_decision { command_of (codes "query" ∷ codes "in" ∷ codes "*" ∷ codes "*" ∷ codes "*" ∷ codes "*" ∷ codes "*" ∷ []) ≡ None }
    ensures audited { command_of (codes "audit" ∷ codes "in" ∷ []) ≡ Some (Audit (codes "in")) }
{}

/// The usage text.
pub fn worked_usage()
    ensures { usage_text ≡ flat_map (λ line. line ++ 10 ∷ []) (codes "usage: razor COMMAND"
        ∷ codes "  expand [--limit N] [--slot W] LIST"
        ∷ codes "  compile [--limit N] [--slot W] LIST"
        ∷ codes "  equiv A B"
        ∷ codes "  cert LIST TABLE"
        ∷ codes "  check LIST TABLE CERT"
        ∷ codes "  trace TABLE TRACE"
        ∷ codes "  drive --slots N SCRIPT TABLE .."
        ∷ codes "  gen SEED N"
        ∷ codes "  selfrun SEED N"
        ∷ codes "  migrate TABLE"
        ∷ codes "  arrange [--order P] [--limit N] [--slot W] LIST"
        ∷ codes "  merge TABLE"
        ∷ codes "  audit LIST"
        ∷ codes "  query LIST S D SP DP P DECISION"
        ∷ codes "  session --slots N [--limit N] [--slot W] [--order P] [--swap S] [--by M] SCRIPT LIST"
        ∷ codes "  trim TABLE"
        ∷ codes "  shorten [--order P] [--limit N] [--slot W] LIST"
        ∷ codes "  place --slots N TABLE"
        ∷ codes "  patch MEMORY TABLE"
        ∷ codes "  apply MEMORY PLAN"
        ∷ codes "  dump MEMORY"
        ∷ codes "  verify LIST TABLE"
        ∷ codes "  prove LIST TABLE"
        ∷ []) }
{}
