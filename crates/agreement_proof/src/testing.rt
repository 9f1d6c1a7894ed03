//! Whether steps are a cover, and how far it reaches.
ghost use Rattle.std.specs.Prelude.{◌≡◌, ◌∷◌, [], IfOk};
ghost use Rattle.std.specs.Bool.{OnTrue};
ghost use Rattle.agreement_check.specs.Covers.{IsCover, entries_named, rules_named};
ghost use Rattle.agreement_check.specs.Views.{claim_of, sides_in};

use agreement_check::{Cover, Sides, Step, Task};
use razor_limits::Memory;
use std::alloc::Global;

/// Whether the steps are a cover that shows the task. Its yes is promised.
pub(crate) fn is_cover(
    alloc: Global,
    sides: &Sides,
    task: &Task,
    steps: &[Step],
) -> Result<bool, Memory>
    ensures { IfOk result (λ yes. OnTrue yes (IsCover (sides_in sides.now) (claim_of task.now) steps.now)) }
{
    let mut cover = Cover::none(alloc);
    cover.begin(task)?;
    for step in steps {
        if !cover.is_due() {
            return Ok(false);
        }
        cover.take(sides, *step)?;
    }
    if cover.is_due() {
        return Ok(false);
    }
    Ok(cover.holds)
}

/// How many of the first rules have all that the steps name.
pub(crate) fn rules_named(steps: &[Step]) -> u64
    ensures { result ≡ rules_named steps.now }
{
    let mut reach = 0;
    for step in steps {
        reach = rule_reach(*step).max(reach);
    }
    reach
}

/// How many of the first rules have the one that the step names.
fn rule_reach(step: Step) -> u64
    ensures { result ≡ rules_named (step ∷ []) }
{
    match step {
        Step::InRule(place) => u64::from(place) + 1,
        _ => 0,
    }
}

/// How many of the first entries have all that the steps name.
pub(crate) fn entries_named(steps: &[Step]) -> u64
    ensures { result ≡ entries_named steps.now }
{
    let mut reach = 0;
    for step in steps {
        reach = entry_reach(*step).max(reach);
    }
    reach
}

/// How many of the first entries have the one that the step names.
fn entry_reach(step: Step) -> u64
    ensures { result ≡ entries_named (step ∷ []) }
{
    match step {
        Step::InEntry(place) => u64::from(place) + 1,
        _ => 0,
    }
}
