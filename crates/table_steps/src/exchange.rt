//! The exchange of a table's first entries for others.
//!
//! The answers stay where each new entry decides as the table answered, and where each of the old entries that no new one
//! hides decides as the rest of the table answers.

ghost use Rattle.std.specs.Prelude.{◌≤◌, ◌++◌, IfOk, length, drop};
ghost use Rattle.std.specs.Bool.{OnTrue};
ghost use Rattle.field_boxes.specs.Alike.{AreAlike};
ghost use Rattle.ternary_words.specs.Entries.{answer};
ghost use Rattle.table_steps.specs.Free.{IsFree, words_of};
ghost use Rattle.table_steps.specs.Exchange.{AnswerAs, LeaveRest};

use crate::free::free_for;
use crate::gathering::push_entries;
use crate::holding::{holders, is_held};
use crate::parts::Parts;
use razor_limits::Memory;
use std::alloc::Global;
use ternary_words::{Entry, Word};
use word_cover::covered;

/// Whether the entries `new` in the place of the first `count` entries of the table leave every answer as it is; no where
/// that isn't seen.
///
/// It tests the word of each new entry against those of its part of the table and of the new ones before it. The word of an old
/// entry is held by one of its part of the new ones, mostly; else it is tested against all of them, and where these don't
/// cover it against the table's too.
pub fn can_exchange(
    alloc: Global,
    table: &[Entry],
    count: usize,
    new: &[Entry],
    budget: u32,
) -> Result<bool, Memory>
    requires { count ≤ length table.now }
    ensures { IfOk result (λ yes. OnTrue yes (AreAlike (answer (new.now ++ drop count table.now)) (answer table.now))) }
{
    let holders = holders(alloc, &table[..count], new)?;
    if !answer_as(alloc, table, new, holders.as_slice(), budget)? {
        return Ok(false);
    }
    leave_rest(alloc, table, count, new, holders.as_slice(), budget)
}

/// Whether the new entries answer what they match as the table does.
fn answer_as(
    alloc: Global,
    table: &[Entry],
    new: &[Entry],
    holders: &[usize],
    budget: u32,
) -> Result<bool, Memory>
    ensures { IfOk result (λ yes. OnTrue yes (AnswerAs new.now table.now)) }
{
    let mut parts = Parts::new(alloc, table)?;
    for (place, entry) in new.iter().enumerate() {
        let before = &new[..place];
        let some = parts.answering(before, table, holders, &entry.word)?;
        if !is_answered(alloc, &some.entries, before, entry, budget)? {
            return Ok(false);
        }
    }
    Ok(true)
}

/// Whether what the entry matches, and none of those before it, is answered so by these entries.
fn is_answered(
    alloc: Global,
    some: &[Entry],
    before: &[Entry],
    entry: &Entry,
    budget: u32,
) -> Result<bool, Memory>
    ensures { IfOk result (λ yes. OnTrue yes (IsFree (words_of before.now) some.now entry.now.word entry.now.decision)) }
{
    free_for(
        alloc,
        &[],
        before,
        some,
        &entry.word,
        entry.decision,
        budget,
    )
}

/// Whether the table answers what the new entries don't match as it does from the place `count` on.
fn leave_rest(
    alloc: Global,
    table: &[Entry],
    count: usize,
    new: &[Entry],
    holders: &[usize],
    budget: u32,
) -> Result<bool, Memory>
    requires { count ≤ length table.now }
    ensures { IfOk result (λ yes. OnTrue yes (LeaveRest (words_of new.now) table.now count)) }
{
    for place in 0..count {
        if !is_replaced(
            alloc,
            &table[..place],
            &table[place],
            &table[count..],
            new,
            holders.get(place).copied(),
            budget,
        )? {
            return Ok(false);
        }
    }
    Ok(true)
}

/// Whether what the entry matches, and none of those before it and no new one, is answered so by the rest.
fn is_replaced(
    alloc: Global,
    before: &[Entry],
    entry: &Entry,
    rest: &[Entry],
    new: &[Entry],
    holder: Option<usize>,
    budget: u32,
) -> Result<bool, Memory>
    ensures { IfOk result (λ yes. OnTrue yes (IsFree (words_of new.now ++ words_of before.now) rest.now entry.now.word entry.now.decision)) }
{
    if is_held(new, holder, &entry.word) {
        return Ok(true);
    }
    let mut words: Vec<Word> = Vec::new(alloc);
    push_entries(&mut words, new, &entry.word)?;
    if covered(alloc, &entry.word, words.as_slice(), budget)? {
        return Ok(true);
    }
    free_for(
        alloc,
        words.as_slice(),
        before,
        rest,
        &entry.word,
        entry.decision,
        budget,
    )
}
