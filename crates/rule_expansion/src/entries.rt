//! The entries of rules that are expanded directly.
ghost use Rattle.std.specs.Prelude.{◌≡◌, ◌≤◌, ◌-◌, ◌∷◌, [], ◌++◌, IfOk, OnOk, length, map, drop, take};
ghost use Rattle.field_boxes.specs.Headline.Fields.{stated};
ghost use Rattle.field_boxes.specs.Rules.{rule_of};
ghost use Rattle.ternary_words.specs.Prefixes.{FitFields, fields_trits};
ghost use Rattle.rule_expansion.specs.Expansion.{combinations, decided_words};
ghost use Rattle.rule_expansion.specs.Entries.{FitCovers, decided_of, with_words, prefixes_of};

use crate::covers::cover_rule;
use field_boxes::{Prefix, Rule};
use razor_limits::Memory;
use std::alloc::Global;
use ternary_words::{Entry, Word};

/// The entries of the rules: rule by rule one for each combination of the prefixes of its five covers.
///
/// The prefix of the source address changes slowest and that of the protocol fastest, and each cover
/// rises. Count them first: there are as many as [`entry_count`](crate::entry_count) says.
pub fn expanded_entries(alloc: Global, rules: &[Rule]) -> Result<Vec<Entry>, Memory>
    ensures { IfOk result (λ entries. map decided_of entries.items ≡ decided_words (map rule_of rules.now)) }
{
    let mut entries = Vec::new(alloc);
    let mut lists = [
        Vec::new(alloc),
        Vec::new(alloc),
        Vec::new(alloc),
        Vec::new(alloc),
        Vec::new(alloc),
    ];
    for rule in rules {
        add_rule(rule, &mut lists, &mut entries)?;
    }
    Ok(entries)
}

/// Adds the entries of the rule, with room of the five lists for its covers.
fn add_rule(
    rule: &Rule,
    lists: &mut [Vec<Prefix>; 5],
    entries: &mut Vec<Entry>,
) -> Result<(), Memory>
    ensures { OnOk result (map decided_of entries.new.items ≡ map decided_of entries.old.items ++ decided_words (rule_of rule.now ∷ [])) }
{
    cover_rule(rule, lists)?;
    let any = Prefix { value: 0, len: 0 };
    add_combinations(lists, [any; 5], rule.decision, entries)
}

/// Adds an entry for each combination of the prefixes of these covers behind those that are chosen.
///
/// The covers are those of the last fields; of the chosen prefixes those of the fields before count.
fn add_combinations(
    covers: &[Vec<Prefix>],
    chosen: [Prefix; 5],
    decision: u32,
    entries: &mut Vec<Entry>,
) -> Result<(), Memory>
    requires few { length covers.now ≤ 5 }
    requires chosen { FitFields stated chosen }
    requires fit { FitCovers (drop (5 - length covers.now) stated) (prefixes_of covers.now) }
    ensures { OnOk result (map decided_of entries.new.items ≡ map decided_of entries.old.items ++
        with_words decision (take (5 - length covers.now) chosen) (combinations (prefixes_of covers.now))) }
{
    let [cover, others @ ..] = covers else {
        let word = Word::of(&chosen);
        entries.push(Entry { word, decision })?;
        return Ok(());
    };
    let field = 5 - covers.len();
    for prefix in cover {
        let mut longer = chosen;
        longer[field] = *prefix;
        add_combinations(others, longer, decision, entries)?;
    }
    Ok(())
}
