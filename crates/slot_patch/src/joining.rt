//! Two writes to one slot, one right behind the other, as one.
ghost use Rattle.std.specs.Prelude.{◌≡◌, ◌≤◌, ◌++◌, ◌∷◌, List, Option, suc, length, IfOk, OnOk};
ghost use Rattle.ternary_words.specs.declared.entry.Entry.{Entry as SeenEntry};
ghost use Rattle.bank_update.specs.Standing.{Bank};
ghost use Rattle.slot_patch.specs.Planning.{IsPlan};
ghost use Rattle.slot_patch.specs.Plans.{IsPatch};
ghost use Rattle.bank_update.specs.declared.write.Write.{Write as SeenWrite};

use crate::plan::Plan;
use bank_update::Write;
use razor_limits::Memory;
use std::alloc::Global;

/// The plan, where of two successive writes to one slot the first is left out.
pub(crate) fn joined(alloc: Global, plan: Plan) -> Result<Plan, Memory>
    ensures { (held : List (Option SeenEntry)) (table : List SeenEntry) → IsPlan held table plan → IfOk result (IsPlan held table) }
{
    let mut writes = Vec::new(alloc);
    for write in &plan.writes {
        put(&mut writes, *write)?;
    }
    let table = plan.table;
    Ok(Plan { writes, table })
}

/// Puts a write behind others, or in the place of the last one where that is to the same slot.
fn put(writes: &mut Vec<Write>, write: Write) -> Result<(), Memory>
    ensures patch { (old new : Bank) (rest : List SeenWrite) → IsPatch old new (writes.old.items ++ write ∷ rest) → OnOk result (IsPatch old new (writes.new.items ++ rest)) }
    ensures fewer { OnOk result (length writes.new.items ≤ suc (length writes.old.items)) }
{
    let Some(last) = writes.pop() else {
        writes.push(write)?;
        return Ok(());
    };
    if last.slot == write.slot {
        writes.push(Write {
            slot: last.slot,
            before: last.before,
            entry: write.entry,
        })?;
        return Ok(());
    }
    writes.extend_from_slice(&[last, write])?;
    Ok(())
}
