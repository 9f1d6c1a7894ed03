//! Covers by halves.
ghost use Rattle.std.specs.Prelude.{IfOk, OnOk};
ghost use Rattle.agreement_check.specs.Covers.{IsCover};
ghost use Rattle.word_cover.specs.Cubes.{cube_of};
ghost use Rattle.agreement_check.specs.Views.{claim_of, sides_in};
ghost use Rattle.table_equiv.specs.Claimed.{Adds, HoldsOf};

use crate::cube::cube_of;
use crate::hint::fronts;
use crate::kept::narrowed;
use crate::leaves::next_step;
use agreement_check::{Sides, Step, Task};
use razor_limits::Memory;
use std::alloc::Global;
use ternary_words::Word;
use word_cover::{one_half, zero_half};

/// The first so many places.
fn places(alloc: Global, count: u32) -> Result<Vec<u32>, Memory> {
    let mut places = Vec::new(alloc);
    for place in 0..count {
        places.push(place)?;
    }
    Ok(places)
}

/// Puts a cover of the word behind the steps.
///
/// The places are those of rules and of entries that are tried; nothing is asked of them.
fn put_cover(
    alloc: Global,
    sides: &Sides,
    task: &Task,
    fronts: &[u128],
    rules: &[u32],
    entries: &[u32],
    word: &Word,
    steps: &mut Vec<Step>,
) -> Result<(), Memory>
    ensures { OnOk result (Adds (sides_in sides.now) (claim_of task.now) (cube_of word.now) steps.old.items steps.new.items) }
{
    let cube = cube_of(*word);
    let rules = narrowed(alloc, &sides.list.rules, rules, &cube)?;
    let entries = narrowed(alloc, &sides.table.entries, entries, &cube)?;
    let step = next_step(sides, task, fronts, &rules, &entries, &cube);
    steps.push(step)?;
    let Step::Halved(bit) = step else {
        return Ok(());
    };
    let zero = zero_half(word, bit);
    put_cover(alloc, sides, task, fronts, &rules, &entries, &zero, steps)?;
    let one = one_half(word, bit);
    put_cover(alloc, sides, task, fronts, &rules, &entries, &one, steps)
}

/// The steps of a cover that shows what the task claims, where that is true. Of other tasks nothing is promised.
pub fn cover_by_halves(alloc: Global, sides: &Sides, task: &Task) -> Result<Vec<Step>, Memory>
    ensures { IfOk result (λ steps. HoldsOf (sides_in sides.now) (claim_of task.now) (cube_of task.now.cube) → IsCover (sides_in sides.now) (claim_of task.now) steps.items) }
{
    let fronts = fronts(alloc, &sides.list.rules)?;
    let rules = places(alloc, task.rules)?;
    let entries = places(alloc, task.entries)?;
    let mut steps = Vec::new(alloc);
    put_cover(
        alloc, sides, task, &fronts, &rules, &entries, &task.cube, &mut steps,
    )?;
    Ok(steps)
}
