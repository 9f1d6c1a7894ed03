//! `apply`: a memory after the writes of a plan.
ghost use Rattle.std.specs.Prelude.{◌≡◌, ◌≢◌, ℕ, List, [], ◌∷◌};
ghost use Rattle.razor_base.specs.Headline.Outcomes.{Extends};
ghost use Rattle.memory_text.specs.Views.{memory_of, plan_of};
ghost use Rattle.razor_base.specs.Texts.{StaysUnread, left_of};
ghost use Rattle.razor_core.specs.PossibleTexts.{MayBeTexts};
ghost use Rattle.razor_core.specs.Behind.{EndsOver};
ghost use Rattle.razor_core.specs.Ending.{Ends};
ghost use Rattle.razor_core.specs.Outside.{seen, Adds, Outside};
ghost use Rattle.razor_core.specs.Commands.Apply.{misfit, applying, IsAppliedText};
ghost use Rattle.razor_core.specs.Taking.{memory_value_of, plan_value_of};
ghost use Rattle.razor_core.specs.Promise.{KeepsPromise};
ghost use Rattle.razor_core.specs.Calls.{MakesCalls, WritesBehind};
ghost use Rattle.razor_core.specs.Meaning.{at_the_end};

use crate::ending::{Ending, written};
use crate::line_reason::LineReason;
use crate::taking::take;
use crate::texts::{MemoryText, PlanText};
use command_words::TwoFiles;
use memory_text::{SlotMemory, SlotPlan, write_memory};
use razor_base::{Desk, Sink};
use std::alloc::Global;

/// Writes a memory after the writes of a plan, whatever these lead to.
#[inline(never)]
pub(crate) fn apply_plan<'a, D: Desk, K: Sink>(
    alloc: Global,
    files: TwoFiles<'a>,
    desk: &mut D,
    out: &mut K,
) -> Ending<'a>
    ensures ends { (texts : List ℕ → List ℕ) → MayBeTexts (D.reads desk.new) texts → Ends (applying files.entry.first.now files.entry.second.now)
        (seen (left_of D.reads texts) D.faults K.written K.faults desk.old out.old)
        (seen (left_of D.reads texts) D.faults K.written K.faults desk.new out.new)
        result }
    ensures others { (other : List ℕ) → other ≢ files.entry.first.now → other ≢ files.entry.second.now → StaysUnread (D.reads desk.old) (D.reads desk.new) other }
    ensures calls { MakesCalls at_the_end (files.entry.first.now ∷ files.entry.second.now ∷ []) (D.reads desk.old) (D.reads desk.new) (K.written out.old) (K.written out.new) result }
{
    let memory = match take(alloc, &MemoryText, files.first, desk) {
        Ok(memory) => memory,
        Err(ending) => return ending,
    };
    let plan = match take(alloc, &PlanText, files.second, desk) {
        Ok(plan) => plan,
        Err(ending) => return ending,
    };
    apply_over(memory, &plan, files.second, out)
}

/// Writes the memory after the writes of the plan of this file, and says how the command ends.
fn apply_over<'a, K: Sink>(
    memory: SlotMemory,
    plan: &SlotPlan,
    file: &'a str,
    out: &mut K,
) -> Ending<'a>
    ensures ends { (first : List ℕ) → EndsOver (applying first file.now) (memory_value_of memory ∷ plan_value_of plan.now ∷ [])
        (K.written out.old) (K.written out.new) (K.faults out.old) (K.faults out.new) result }
    ensures writes { Extends (K.written out.old) (K.written out.new) (WritesBehind result) }
{
    if let Some(reason) = misfit(&memory, plan) {
        return Ending::BadLine {
            file,
            line: 1,
            reason,
        };
    }
    let memory = match memory.after(plan) {
        Ok(memory) => memory,
        Err(_) => return Ending::Memory,
    };
    written(write_memory(&memory, out))
}

/// What is wrong with a plan for a memory: another number of slots, or other ones.
fn misfit(memory: &SlotMemory, plan: &SlotPlan) -> Option<LineReason>
    ensures { result ≡ misfit (memory_of memory.now) (plan_of plan.now) }
{
    if plan.slots as usize != memory.slots.len() {
        return Some(LineReason::SlotCount);
    }
    if plan.width.bits != memory.width.bits {
        return Some(LineReason::SlotWidth);
    }
    None
}

/// What `apply` has written is the memory after the writes of the plan.
pub fn applied_plans_are_written()
    ensures { (before after : Outside) (line : List ℕ) (memory plan first second : List ℕ) →
        KeepsPromise (applying memory plan) before after line 0 → before.remaining memory ≡ first → before.remaining plan ≡ second →
        Adds before after (IsAppliedText first second) }
{}
