//! `patch`: a plan that leads from a memory to a table.
ghost use Rattle.std.specs.Prelude.{◌≢◌, ℕ, List, [], ◌∷◌, ◌≡◌};
ghost use Rattle.razor_base.specs.Headline.Outcomes.{Extends};
ghost use Rattle.memory_text.specs.Kept.{AreSpelled};
ghost use Rattle.razor_base.specs.Texts.{StaysUnread, left_of};
ghost use Rattle.razor_core.specs.PossibleTexts.{MayBeTexts};
ghost use Rattle.razor_core.specs.Behind.{EndsOver};
ghost use Rattle.razor_core.specs.Ending.{Ends};
ghost use Rattle.razor_core.specs.Outside.{seen, Adds, Outside};
ghost use Rattle.razor_core.specs.Commands.Patch.{patching, IsPatchText};
ghost use Rattle.razor_core.specs.Taking.{memory_value_of, table_value_of};
ghost use Rattle.razor_core.specs.Promise.{KeepsPromise};
ghost use Rattle.razor_core.specs.Calls.{MakesCalls, WritesBehind};
ghost use Rattle.razor_core.specs.Meaning.{at_the_end};

use crate::ending::{Ending, written};
use crate::line_reason::LineReason;
use crate::taking::take;
use crate::texts::{MemoryText, TableText};
use command_words::TwoFiles;
use memory_text::{Patched, SlotMemory, patch, write_plan};
use razor_base::{Desk, Sink};
use std::alloc::Global;
use ternary_words::Table;

/// Writes a plan that leads from a memory to a table, with each header answered as before or as behind between any two writes.
#[inline(never)]
pub(crate) fn plan_patch<'a, D: Desk, K: Sink>(
    alloc: Global,
    files: TwoFiles<'a>,
    desk: &mut D,
    out: &mut K,
) -> Ending<'a>
    ensures ends { (texts : List ℕ → List ℕ) → MayBeTexts (D.reads desk.new) texts → Ends (patching files.entry.first.now files.entry.second.now)
        (seen (left_of D.reads texts) D.faults K.written K.faults desk.old out.old)
        (seen (left_of D.reads texts) D.faults K.written K.faults desk.new out.new)
        result }
    ensures others { (other : List ℕ) → other ≢ files.entry.first.now → other ≢ files.entry.second.now → StaysUnread (D.reads desk.old) (D.reads desk.new) other }
    ensures calls { MakesCalls at_the_end (files.entry.first.now ∷ files.entry.second.now ∷ []) (D.reads desk.old) (D.reads desk.new) (K.written out.old) (K.written out.new) result }
{
    let memory = match take(alloc, &MemoryText, files.first, desk) {
        Ok(memory) => memory,
        Err(ending) => return ending,
    };
    let table = match take(alloc, &TableText, files.second, desk) {
        Ok(table) => table,
        Err(ending) => return ending,
    };
    patch_over(alloc, memory, &table, files.second, out)
}

/// Writes a plan from the memory to the table of this file, and says how the command ends.
fn patch_over<'a, K: Sink>(
    alloc: Global,
    memory: SlotMemory,
    table: &Table,
    file: &'a str,
    out: &mut K,
) -> Ending<'a>
    requires { AreSpelled table.now.names }
    ensures ends { (first : List ℕ) → EndsOver (patching first file.now) (memory_value_of memory ∷ table_value_of table.now ∷ [])
        (K.written out.old) (K.written out.new) (K.faults out.old) (K.faults out.new) result }
    ensures writes { Extends (K.written out.old) (K.written out.new) (WritesBehind result) }
{
    if table.slot.bits != memory.width.bits {
        return Ending::BadLine {
            file,
            line: 1,
            reason: LineReason::SlotWidth,
        };
    }
    let limit = memory.slots.len() as u32;
    let plan = match patch(alloc, memory, table) {
        Ok(Patched::Ready(plan)) => plan,
        Ok(Patched::NoRoom(needed)) => {
            return Ending::TooMany {
                needed: u128::from(needed),
                limit,
            };
        }
        Err(_) => return Ending::Memory,
    };
    written(write_plan(&plan, out))
}

/// What `patch` has written is a plan that leads from the memory to the table: between any two writes each header is answered as
/// before the first one or as behind the last one, and there are slots enough for both.
pub fn patches_lead_to_their_tables()
    ensures { (before after : Outside) (line : List ℕ) (memory table first second : List ℕ) →
        KeepsPromise (patching memory table) before after line 0 → before.remaining memory ≡ first → before.remaining table ≡ second →
        Adds before after (IsPatchText first second) }
{}
