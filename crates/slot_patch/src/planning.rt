//! The plan that leads from a table in its slots to another one.
ghost use Rattle.std.specs.Prelude.{◌≡◌, ◌≤◌, ◌+◌, ◌*◌, ◌<◌, ◌^◌, length, IfOk};
ghost use Rattle.std.specs.Bool.{OnTrue, OnFalse};
ghost use Rattle.slot_patch.specs.Least.{least_slots, same_word};
ghost use Rattle.bank_update.specs.Standing.{entries_in};
ghost use Rattle.slot_patch.specs.Merging.{IsLayoutOf};
ghost use Rattle.slot_patch.specs.Ordered.{places};
ghost use Rattle.slot_patch.specs.Planning.{IsPlan, IsPlanned};

use crate::beside::plan_beside;
use crate::draft::in_layout;
use crate::interleaving::order_wishes;
use crate::joining::joined;
use crate::layout::Layout;
use crate::merging::merged;
use crate::plan::{Plan, Planned};
use crate::sharing::shared;
use crate::spreading::{Spread, spread_out};
use crate::standing::{Standing, standing_in};
use crate::staying::slot_wishes;
use razor_limits::Memory;
use std::alloc::Global;
use ternary_words::Entry;

/// The plan that leads from the table in these slots to another one, or how many slots that needs, where there are fewer.
///
/// The plan writes in place, after moves that make room; where it would be longer than writing the table whole into free slots
/// and clearing the old one, and there is room for both, it does that. It takes time in the number of slots and entries, and of
/// pairs of equal words in both tables, times the logarithm of the entries.
pub fn plan_update(
    alloc: Global,
    held: &[Option<Entry>],
    table: &[Entry],
) -> Result<Planned, Memory>
    requires { length held.now < 2 ^ 32 }
    ensures { IfOk result (IsPlanned held.now table.now) }
{
    let standing = standing_in(alloc, held)?;
    let compact = compact(alloc, &standing, table, held.len())?;
    let needed = compact.start.len();
    if needed > held.len() {
        return Ok(Planned::NoRoom(needed));
    }
    let plan = plan_in_place(alloc, held, &standing, table, &compact)?;
    if is_shorter_beside(
        plan.writes.len(),
        standing.entries.len(),
        table.len(),
        held.len(),
    ) {
        let beside = plan_beside(alloc, held, &standing, table)?;
        return Ok(Planned::Ready(beside));
    }
    Ok(Planned::Ready(plan))
}

/// Whether fewer writes put the table whole beside the old one, and there is room.
fn is_shorter_beside(writes: usize, old: usize, new: usize, slots: usize) -> bool
    ensures yes { OnTrue result (old + new ≤ slots) }
    ensures no { OnFalse result (old + new ≤ slots → writes ≤ old + new) }
{
    new <= slots && old <= slots - new && old + new < writes
}

/// The layout of both tables in the fewest slots.
fn compact(
    alloc: Global,
    standing: &Standing,
    table: &[Entry],
    slots: usize,
) -> Result<Layout, Memory>
    ensures layout { IfOk result (IsLayoutOf standing.now.entries.items table.now) }
    ensures fewest { IfOk result (λ layout. length layout.start.items ≡ least_slots same_word standing.now.entries.items table.now) }
{
    let pairs = shared(alloc, &standing.entries, table)?;
    let above = order_wishes(alloc, &standing.slots, &pairs, table.len(), slots)?;
    let layout = merged(alloc, &standing.entries, table, &pairs, &above)?;
    Ok(layout)
}

/// The plan that moves the old entries to slots between which there is room, and writes the table there.
fn plan_in_place(
    alloc: Global,
    held: &[Option<Entry>],
    standing: &Standing,
    table: &[Entry],
    compact: &Layout,
) -> Result<Plan, Memory>
    requires few { length held.now < 2 ^ 32 }
    requires slots { standing.now.slots.items ≡ places 0 held.now }
    requires entries { standing.now.entries.items ≡ entries_in held.now }
    requires room { length compact.now.start.items ≤ length held.now }
    requires layout { IsLayoutOf standing.now.entries.items table.now compact.now }
    ensures { IfOk result (IsPlan held.now table.now) }
{
    let wishes = slot_wishes(alloc, compact, &standing.slots, held.len())?;
    let Spread { next, slots } = spread_out(
        alloc,
        &standing.entries,
        table,
        compact,
        &wishes,
        held.len(),
    )?;
    let plan = in_layout(alloc, &standing.slots, &slots, &standing.entries, next)?;
    let plan = joined(alloc, plan)?;
    Ok(plan)
}
