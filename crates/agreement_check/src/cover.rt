//! A cover, word by word.
ghost use Rattle.std.specs.Prelude.{◌≡◌, ◌↔◌, ◌+◌, ◌^◌, ◌≤◌, ◌<◌, [], ◌∷◌, IsTrue, IfOk, length, max, min};
ghost use Rattle.std.specs.Bool.{OnTrue, OnFalse};
ghost use Rattle.agreement_check.specs.Covers.{Shows, entries_named, rules_named};
ghost use Rattle.agreement_check.specs.Covering.{Breaks, Follows, cubes_left, due_after};
ghost use Rattle.word_cover.specs.Cubes.{IsOpen, cube_of, one_half, zero_half};
ghost use Rattle.agreement_check.specs.Views.{claim_of, sides_in};

use crate::sides::Sides;
use crate::step::Step;
use crate::task::Task;
use razor_base::Memory;
use std::alloc::Global;
use ternary_words::Word;
use word_cover::{all_headers, is_open, one_half, zero_half};

/// A cover of which some words were taken.
///
/// Once a word didn't hold, only how many covers are still to come is kept up.
#[derive(Drop)]
pub struct Cover {
    pub task: Task,
    /// The cubes that are still to be covered, the next one last.
    pub left: Vec<Word>,
    /// How many covers are still to come.
    pub due: u64,
    /// Whether each word held.
    pub holds: bool,
    /// How many of the first rules the cover reaches: all that were named are among them.
    pub rules: u32,
    /// How many of the first entries it reaches.
    pub entries: u32,
}

impl Cover {
    ghost use Rattle.std.specs.Prelude.{◌≡◌, ◌↔◌, ◌+◌, ◌^◌, ◌≤◌, ◌<◌, List, [], ◌∷◌, ◌++◌, IsTrue, OnOk};
    ghost use Rattle.agreement_check.specs.declared.step.Step.{Step};
    ghost use Rattle.agreement_check.specs.Covers.{Claim, Sides as Compared};
    ghost use Rattle.agreement_check.specs.Covering.{StandsFor};
    ghost use Rattle.agreement_check.specs.Views.{claim_of, sides_in};

    /// Of all headers, of which nothing is due.
    pub fn none(alloc: Global) -> Cover
        ensures { result.due ≡ 0 }
    {
        Cover {
            task: Task {
                cube: all_headers(),
                of: 0,
                rules: 0,
                entries: 0,
            },
            left: Vec::new(alloc),
            due: 0,
            holds: false,
            rules: 0,
            entries: 0,
        }
    }

    /// Begins a cover that has to show this.
    pub fn begin(&mut self, task: &Task) -> Result<(), Memory>
        ensures stands { OnOk result ((s : Compared) → StandsFor s (claim_of task.now) [] self.new) }
        ensures due { self.new.due ≤ self.old.due + 1 }
    {
        self.left.clear();
        self.left.push(task.cube)?;
        self.task = *task;
        self.due = 1;
        self.holds = true;
        self.rules = 0;
        self.entries = 0;
        Ok(())
    }

    /// Whether more words are to come.
    pub fn is_due(&self) -> bool
        ensures { IsTrue result ↔ (0 < self.now.due) }
    {
        0 < self.due
    }

    /// Takes the next word.
    pub fn take(&mut self, sides: &Sides, step: Step) -> Result<(), Memory>
        requires some { 0 < self.old.due }
        requires few { self.old.due < 2 ^ 63 }
        ensures stands { (c : Claim) (steps : List Step) → StandsFor (sides_in sides.now) c steps self.old →
            OnOk result (StandsFor (sides_in sides.now) c (steps ++ step ∷ []) self.new) }
        ensures due { self.new.due ≤ self.old.due + 1 }
    {
        self.due = due_after(self.due, step);
        if !self.holds {
            return Ok(());
        }
        self.rules = rules_after(self.rules, step);
        self.entries = entries_after(self.entries, step);
        self.holds = follow(&mut self.left, sides, &self.task, step)?;
        Ok(())
    }
}

/// How many covers are still to come behind a step of the first of so many.
fn due_after(due: u64, step: Step) -> u64
    requires some { 0 < due }
    requires few { due < 2 ^ 63 }
    ensures { result ≡ due_after due step }
{
    match step {
        Step::Halved(_) => due + 1,
        _ => due - 1,
    }
}

/// How many of the first rules have these and one that the step names, if it names one.
fn rules_after(rules: u32, step: Step) -> u32
    ensures { result ≡ max rules (min (rules_named (step ∷ [])) u32.MAX) }
{
    match step {
        Step::InRule(place) => rules.max(place.saturating_add(1)),
        _ => rules,
    }
}

/// How many of the first entries have these and one that the step names, if it names one.
fn entries_after(entries: u32, step: Step) -> u32
    ensures { result ≡ max entries (min (entries_named (step ∷ [])) u32.MAX) }
{
    match step {
        Step::InEntry(place) => entries.max(place.saturating_add(1)),
        _ => entries,
    }
}

/// Whether the step holds of the last cube, which is done then, or halved.
fn follow(left: &mut Vec<Word>, sides: &Sides, task: &Task, step: Step) -> Result<bool, Memory>
    ensures yes { IfOk result (λ yes. OnTrue yes (Follows (sides_in sides.now) (claim_of task.now) step (cubes_left left.old.items) (cubes_left left.new.items))) }
    ensures no { IfOk result (λ yes. OnFalse yes (Breaks (sides_in sides.now) (claim_of task.now) step (cubes_left left.old.items))) }
    ensures count { IfOk result (λ yes. OnTrue yes (length left.new.items ≡ due_after (length left.old.items) step)) }
{
    let Some(cube) = left.pop() else {
        return Ok(false);
    };
    match step {
        Step::Halved(bit) => halve(left, &cube, bit),
        _ => Ok(shows(sides, task, &cube, step)),
    }
}

/// Puts the halves of the cube behind the others, the one with 0 at the bit last. No where the bit isn't open.
fn halve(left: &mut Vec<Word>, cube: &Word, bit: u32) -> Result<bool, Memory>
    ensures yes { IfOk result (λ yes. OnTrue yes (IsOpen (cube_of cube.now) bit
        × (cubes_left left.new.items ≡ zero_half (cube_of cube.now) bit ∷ one_half (cube_of cube.now) bit ∷ cubes_left left.old.items))) }
    ensures no { IfOk result (λ yes. OnFalse yes (IsOpen (cube_of cube.now) bit → ⊥)) }
    ensures count { IfOk result (λ yes. OnTrue yes (length left.new.items ≡ length left.old.items + 2)) }
{
    if !is_open(cube, bit) {
        return Ok(false);
    }
    left.push(one_half(cube, bit))?;
    left.push(zero_half(cube, bit))?;
    Ok(true)
}

/// Whether the step says alone why the cube is covered.
pub fn shows(sides: &Sides, task: &Task, cube: &Word, step: Step) -> bool
    ensures { IsTrue result ↔ Shows (sides_in sides.now) (claim_of task.now) (cube_of cube.now) step }
{
    match step {
        Step::InRule(place) => place < task.rules && sides.lies_in_rule(place, cube),
        Step::InEntry(place) => place < task.entries && sides.lies_in_entry(place, cube),
        Step::Missed => !sides.meets_rule(task.of, cube),
        Step::Late => sides.bound <= cube.value,
        Step::Halved(_) => false,
    }
}
