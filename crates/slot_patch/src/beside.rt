//! A new table whole, beside the old one.
ghost use Rattle.std.specs.Prelude.{◌≡◌, ◌≤◌, ◌+◌, ◌<◌, ◌^◌, length, IfOk};
ghost use Rattle.bank_update.specs.Standing.{bank_of, entries_in};
ghost use Rattle.slot_patch.specs.Held.{StandIn};
ghost use Rattle.slot_patch.specs.Layouts.{free_slots};
ghost use Rattle.slot_patch.specs.Plans.{IsPatch};

use crate::draft::in_place;
use crate::plan::Plan;
use crate::standing::Standing;
use razor_limits::Memory;
use std::alloc::Global;
use ternary_words::Entry;

/// The plan that writes the table whole into free slots, and then clears the old one.
pub(crate) fn plan_beside(
    alloc: Global,
    held: &[Option<Entry>],
    standing: &Standing,
    table: &[Entry],
) -> Result<Plan, Memory>
    requires few { length held.now < 2 ^ 32 }
    requires standing { StandIn held.now standing.now.slots.items standing.now.entries.items }
    requires room { length (entries_in held.now) + length table.now ≤ length held.now }
    ensures patch { IfOk result (λ plan. IsPatch (bank_of held.now) (bank_of plan.table.items) plan.writes.items) }
    ensures entries { IfOk result (λ plan. entries_in plan.table.items ≡ table.now) }
    ensures slots { IfOk result (λ plan. length plan.table.items ≡ length held.now) }
    ensures count { IfOk result (λ plan. length plan.writes.items ≡ length (entries_in held.now) + length table.now) }
{
    let next = into_free(alloc, held, table)?;
    let plan = in_place(alloc, &standing.slots, &standing.entries, next)?;
    Ok(plan)
}

/// The entries in the first free slots.
fn into_free(
    alloc: Global,
    held: &[Option<Entry>],
    table: &[Entry],
) -> Result<Vec<Option<Entry>>, Memory>
    ensures { IfOk result (λ next. next.items ≡ free_slots held.now table.now) }
{
    let mut next = Vec::new(alloc);
    let mut rest = table;
    for slot in held {
        match (slot, rest) {
            (None, [entry, behind @ ..]) => {
                next.push(Some(*entry))?;
                rest = behind;
            }
            _ => next.push(None)?,
        }
    }
    Ok(next)
}
