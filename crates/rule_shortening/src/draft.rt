//! Entries that stand for the last rules of a list.
ghost use Rattle.std.specs.Prelude.{◌++◌, ◌≤◌, All, List, IfOk, IfSome, length, vec_len};
ghost use Rattle.field_boxes.specs.declared.rule.Rule as code_rule;
ghost use Rattle.field_boxes.specs.NamedRules.{IsNumberedBy};
ghost use Rattle.razor_limits.specs.declared.limits.TheConstants.{MOST_RULES};
ghost use Rattle.rule_shortening.specs.Drafts.{AreAsShort, AreFor};

use crate::checked::checked;
use crate::laying::Laying;
use field_boxes::{Decisions, Rule};
use razor_limits::Memory;
use razor_limits::limits::MOST_ENTRIES;
use rule_expansion::laws::{decided_words_are_entries, decided_words_are_prefixes};
use rule_expansion::{entry_count, expanded_entries};
use std::alloc::Global;
use std::mem::replace;
use ternary_words::Entry;

/// Entries that stand for the rules from the place `first` on.
#[derive(Drop)]
pub(crate) struct Draft {
    pub first: usize,
    pub entries: Vec<Entry>,
}

/// Whether the entries of the rules may stand in front of so many others.
pub(crate) fn has_room(rules: &[Rule], behind: usize) -> bool
    requires { length rules.now ≤ MOST_RULES }
{
    entry_count(rules).saturating_add(behind as u128) <= u128::from(MOST_ENTRIES)
}

/// The entries of the rules, in front of those behind them.
pub(crate) fn in_front(
    alloc: Global,
    rules: &[Rule],
    names: &Decisions,
    behind: &[Entry],
) -> Result<Vec<Entry>, Memory>
    requires numbered { All (IsNumberedBy names.now) rules.now }
    ensures { IfOk result (λ entries. (later : List code_rule.Rule) →
        AreFor (length names.now) later behind.now → AreFor (length names.now) (rules.now ++ later) entries.items) }
{
    decided_words_are_entries();
    decided_words_are_prefixes();
    let mut entries = expanded_entries(alloc, rules)?;
    entries.extend_from_slice(behind)?;
    Ok(entries)
}

/// The direct expansion of the rules.
pub(crate) fn in_full(
    alloc: Global,
    rules: &[Rule],
    names: &Decisions,
) -> Result<Vec<Entry>, Memory>
    requires numbered { All (IsNumberedBy names.now) rules.now }
    ensures { IfOk result (λ entries. AreFor (length names.now) rules.now entries.items) }
{
    Ok(in_front(alloc, rules, names, &[])?)
}

/// The table, which begins with the entries of the rules, or these laid out in fewer, if that is seen to answer alike.
fn begun_shorter(
    alloc: Global,
    table: Vec<Entry>,
    rules: &[Rule],
    behind: &[Entry],
    names: &Decisions,
    laying: &mut Laying,
) -> Result<Vec<Entry>, Memory>
    ensures { IfOk result (λ kept. AreAsShort (length names.now) table.items kept.items) }
{
    let new = laying.next(rules, behind)?;
    checked(alloc, table, new, names.count())
}

impl Draft {
    ghost use Rattle.std.specs.Prelude.{◌≡◌, [], ◌≤◌, ◌<◌, All, IfOk, IfSome, length};
    ghost use Rattle.field_boxes.specs.NamedRules.{IsNumberedBy};
    ghost use Rattle.razor_limits.specs.declared.limits.TheConstants.{MOST_RULES};
    ghost use Rattle.rule_shortening.specs.Drafts.{AreFor, IsDraftOf};

    /// Stands for no rule, where there are so many.
    fn new(alloc: Global, count: usize) -> Draft
        ensures first { result.first ≡ count }
        ensures empty { result.entries.items ≡ [] }
    {
        Draft {
            first: count,
            entries: Vec::new(alloc),
        }
    }

    /// Takes in the rules from the place on, if that is due, and lays them out in few entries. It takes nothing in, and says
    /// no, where more than 262,144 entries would stand there.
    fn take_in(
        &mut self,
        alloc: Global,
        rules: &[Rule],
        names: &Decisions,
        place: usize,
        laying: &mut Laying,
    ) -> Result<bool, Memory>
        requires few { length rules.now ≤ MOST_RULES }
        requires place { place < length rules.now }
        requires numbered { All (IsNumberedBy names.now) rules.now }
        requires draft { IsDraftOf (length names.now) rules.now self.old }
        ensures { IfOk result (λ done. IsDraftOf (length names.now) rules.now self.new) }
    {
        if place >= self.first || !laying.is_due(&rules[place], place) {
            return Ok(true);
        }
        let taken = &rules[place..self.first];
        if !has_room(taken, self.entries.len()) {
            return Ok(false);
        }
        let table = in_front(alloc, taken, names, self.entries.as_slice())?;
        self.entries = begun_shorter(alloc, table, taken, self.entries.as_slice(), names, laying)?;
        self.first = place;
        Ok(true)
    }
}

/// Entries that stand for the rules; none where more than 262,144 would have to stand there at once.
pub(crate) fn drafted(
    alloc: Global,
    rules: &[Rule],
    names: &Decisions,
    laying: &mut Laying,
) -> Result<Option<Vec<Entry>>, Memory>
    requires few { length rules.now ≤ MOST_RULES }
    requires numbered { All (IsNumberedBy names.now) rules.now }
    ensures { IfOk result (λ made. IfSome made (λ entries. AreFor (length names.now) rules.now entries.items)) }
{
    let mut draft = Draft::new(alloc, rules.len());
    for later in 0..rules.len() {
        if !draft.take_in(alloc, rules, names, rules.len() - 1 - later, laying)? {
            return Ok(None);
        }
    }
    let taken = &rules[..draft.first];
    if !has_room(taken, draft.entries.len()) {
        return Ok(None);
    }
    Ok(Some(in_front(alloc, taken, names, draft.entries.as_slice())?))
}
