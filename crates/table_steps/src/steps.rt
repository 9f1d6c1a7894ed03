//! Steps that change a table and keep its answers.

ghost use Rattle.std.specs.Prelude.{◌≡◌, ◌<◌, ◌≤◌, IfOk, OnErr, length, cond};
ghost use Rattle.std.specs.Bool.{OnTrue};
ghost use Rattle.std.specs.List.{remove, insert};
ghost use Rattle.field_boxes.specs.Alike.{AreAlike};
ghost use Rattle.ternary_words.specs.Entries.{answer};
ghost use Rattle.table_steps.specs.Shortened.{IsShortened};

use crate::free::free_for;
use razor_limits::Memory;
use std::alloc::Global;
use ternary_words::Entry;

/// Whether the table answers every header alike without the entry at the place; no where that isn't seen.
pub fn redundant(alloc: Global, table: &[Entry], place: usize, budget: u32) -> Result<bool, Memory>
    requires { place < length table.now }
    ensures { IfOk result (λ yes. OnTrue yes (AreAlike (answer (remove table.now place)) (answer table.now))) }
{
    let entry = table[place];
    free_for(
        alloc,
        &[],
        &table[..place],
        &table[place + 1..],
        &entry.word,
        entry.decision,
        budget,
    )
}

/// Takes the entry at the place out, if it is seen to be redundant, and says whether it did.
pub fn take_out(
    alloc: Global,
    table: &mut Vec<Entry>,
    place: usize,
    budget: u32,
) -> Result<bool, Memory>
    requires { place < length table.old.items }
    ensures shortened { IsShortened table.old.items table.new.items }
    ensures taken { IfOk result (λ taken. table.new.items ≡ cond taken (remove table.old.items place) table.old.items) }
    ensures kept { OnErr result (table.new.items ≡ table.old.items) }
{
    if !redundant(alloc, table.as_slice(), place, budget)? {
        return Ok(false);
    }
    table.remove(place);
    Ok(true)
}

/// Takes out the entries that are seen to be redundant, each beside those that are left, from the last to the first.
///
/// Where memory is refused, some are taken out.
pub fn tight(alloc: Global, table: &mut Vec<Entry>, budget: u32) -> Result<(), Memory>
    ensures { IsShortened table.old.items table.new.items }
{
    let mut place = table.len();
    while place > 0 {
        place -= 1;
        take_out(alloc, table, place, budget)?;
    }
    Ok(())
}

/// Puts the entry in at the place, in front of the one that stands there, if the answers are seen to stay, and says whether it did.
pub fn put_in(
    alloc: Global,
    table: &mut Vec<Entry>,
    place: usize,
    entry: Entry,
    budget: u32,
) -> Result<bool, Memory>
    requires { place ≤ length table.old.items }
    ensures alike { AreAlike (answer table.new.items) (answer table.old.items) }
    ensures put { IfOk result (λ put. table.new.items ≡ cond put (insert table.old.items place entry) table.old.items) }
    ensures kept { OnErr result (table.new.items ≡ table.old.items) }
{
    let entries = table.as_slice();
    let free = free_for(
        alloc,
        &[],
        &entries[..place],
        &entries[place..],
        &entry.word,
        entry.decision,
        budget,
    )?;
    if !free {
        return Ok(false);
    }
    table.insert(place, entry)?;
    Ok(true)
}
