//! What a search found, where it is seen to be as good.
ghost use Rattle.std.specs.Prelude.{IfOk, IfSome};
ghost use Rattle.std.specs.Bool.{OnTrue};
ghost use Rattle.rule_shortening.specs.Drafts.{AreAsShort};

use razor_limits::Memory;
use std::alloc::Global;
use table_steps::{answers_alike, are_numbered};
use ternary_words::{Entry, are_prefixes};

/// Steps that one question about words that cover a word may take. Nearly all take fewer than a hundred.
pub(crate) const STEPS: u32 = 20_000;

/// Whether the new entries are seen to answer as the table does: they are no more, their words are prefixes in each field,
/// their decisions are numbers of so many names, and covers show that every header is answered alike.
pub(crate) fn are_as_short(
    alloc: Global,
    table: &[Entry],
    new: &[Entry],
    count: u32,
) -> Result<bool, Memory>
    ensures { IfOk result (λ yes. OnTrue yes (AreAsShort count table.now new.now)) }
{
    if new.len() > table.len() || !are_prefixes(new) || !are_numbered(new, count) {
        return Ok(false);
    }
    answers_alike(alloc, table, new, STEPS)
}

/// The new entries where they are seen to be as good as the table, which stays otherwise.
pub(crate) fn checked(
    alloc: Global,
    table: Vec<Entry>,
    new: Vec<Entry>,
    count: u32,
) -> Result<Vec<Entry>, Memory>
    ensures { IfOk result (λ kept. AreAsShort count table.items kept.items) }
{
    if are_as_short(alloc, table.as_slice(), new.as_slice(), count)? {
        Ok(new)
    } else {
        Ok(table)
    }
}

/// The new entries, if they are seen to be as good as the table.
pub(crate) fn if_as_short(
    alloc: Global,
    table: &[Entry],
    new: Vec<Entry>,
    count: u32,
) -> Result<Option<Vec<Entry>>, Memory>
    ensures { IfOk result (λ found. IfSome found (λ kept. AreAsShort count table.now kept.items)) }
{
    if are_as_short(alloc, table, new.as_slice(), count)? {
        Ok(Some(new))
    } else {
        Ok(None)
    }
}
