//! Planning the writes that lead from a memory to a table.
ghost use Rattle.std.specs.Prelude.{IfOk};
ghost use Rattle.ternary_words.specs.Views.{table_of};
ghost use Rattle.memory_text.specs.Kept.{AreSpelled};
ghost use Rattle.memory_text.specs.Patched.{AreCopies, IsPatched};
ghost use Rattle.memory_text.specs.Views.{memory_of};

use crate::memory::SlotMemory;
use crate::plan::SlotPlan;
use bank_update::{Put, Write};
use razor_base::Memory;
use slot_patch::{Planned, plan_update};
use std::alloc::Global;
use ternary_words::Table;

/// What comes of planning.
#[derive(Drop)]
pub enum Patched {
    /// A plan.
    Ready(SlotPlan),
    /// Both tables need so many slots, and the memory has fewer.
    NoRoom(u64),
}

/// The plan that leads from the memory to the table, so that each header is answered as before or as behind at each moment, or how
/// many slots that needs, where there are fewer.
pub fn patch(alloc: Global, memory: SlotMemory, table: &Table) -> Result<Patched, Memory>
    requires { AreSpelled table.now.names }
    ensures { IfOk result (IsPatched (memory_of memory) (table_of table.now)) }
{
    let SlotMemory {
        width,
        slots,
        mut names,
    } = memory;
    let entries = names.renumber(alloc, table)?;
    match plan_update(alloc, &slots, &entries)? {
        Planned::Ready(plan) => {
            let writes = puts(alloc, &plan.writes)?;
            Ok(Patched::Ready(SlotPlan {
                slots: slots.len() as u32,
                width,
                writes,
                names,
            }))
        }
        Planned::NoRoom(needed) => Ok(Patched::NoRoom(needed as u64)),
    }
}

/// What the writes put down.
fn puts(alloc: Global, writes: &[Write]) -> Result<Vec<Put>, Memory>
    ensures { IfOk result (λ puts. AreCopies writes.now puts.items) }
{
    let mut puts = Vec::with_capacity(alloc, writes.len())?;
    for write in writes {
        puts.push(Put {
            slot: write.slot,
            entry: write.entry,
        })?;
    }
    Ok(puts)
}
