//! Why a cube is covered.
ghost use Rattle.std.specs.Prelude.{◌<◌, ℕ, IfSome, MatchOption};
ghost use Rattle.agreement_check.specs.Covers.{MeetsRuleAt, Shows};
ghost use Rattle.word_cover.specs.Cubes.{IsOpen, cube_of};
ghost use Rattle.agreement_check.specs.Views.{claim_of, sides_in};
ghost use Rattle.table_equiv.specs.Claimed.{Serves};

use crate::cube::{Cube, least, open_bit};
use crate::hint::hint;
use agreement_check::{Sides, Step, Task, shows};
use ternary_words::Word;

/// That nothing of the word is asked for: it is late, or misses the rule that is covered.
fn left_out(sides: &Sides, task: &Task, word: &Word) -> Option<Step>
    ensures { MatchOption result ((word.now.value < sides.now.bound) × MeetsRuleAt sides.now.list.now.rules.items task.now.of (cube_of word.now))
        (Shows (sides_in sides.now) (claim_of task.now) (cube_of word.now)) }
{
    if sides.bound <= word.value {
        return Some(Step::Late);
    }
    if !sides.meets_rule(task.of, word) {
        return Some(Step::Missed);
    }
    None
}

/// The step, if it shows why the word is covered.
fn if_shown(sides: &Sides, task: &Task, word: &Word, step: Step) -> Option<Step>
    ensures { IfSome result (Shows (sides_in sides.now) (claim_of task.now) (cube_of word.now)) }
{
    if shows(sides, task, word, step) {
        Some(step)
    } else {
        None
    }
}

/// That the word lies in the last of the rules.
fn in_last_rule(sides: &Sides, task: &Task, rules: &[u32], word: &Word) -> Option<Step>
    ensures { IfSome result (Shows (sides_in sides.now) (claim_of task.now) (cube_of word.now)) }
{
    match rules.last() {
        Some(&place) => if_shown(sides, task, word, Step::InRule(place)),
        None => None,
    }
}

/// That it lies in the last of the entries.
fn in_last_entry(sides: &Sides, task: &Task, entries: &[u32], word: &Word) -> Option<Step>
    ensures { IfSome result (Shows (sides_in sides.now) (claim_of task.now) (cube_of word.now)) }
{
    match entries.last() {
        Some(&place) => if_shown(sides, task, word, Step::InEntry(place)),
        None => None,
    }
}

/// Why a word of one header is covered, where it is.
fn last_step(sides: &Sides, task: &Task, word: &Word) -> Step
    requires closed { (bit : ℕ) → IsOpen (cube_of word.now) bit → ⊥ }
    requires early { word.now.value < sides.now.bound }
    requires meets { MeetsRuleAt sides.now.list.now.rules.items task.now.of (cube_of word.now) }
    ensures { Serves (sides_in sides.now) (claim_of task.now) (cube_of word.now) result }
{
    let header = least(word);
    let rule = sides.first_rule(&header);
    if rule < task.rules {
        return Step::InRule(rule);
    }
    let entry = sides.first_entry(&header);
    Step::InEntry(entry)
}

/// Why the cube is covered, where it is, or at which bit to halve it.
///
/// The places are those of rules and of entries that are tried.
pub(crate) fn next_step(
    sides: &Sides,
    task: &Task,
    fronts: &[u128],
    rules: &[u32],
    entries: &[u32],
    cube: &Cube,
) -> Step
    ensures { Serves (sides_in sides.now) (claim_of task.now) (cube_of cube.now.word) result }
{
    if let Some(step) = left_out(sides, task, &cube.word) {
        return step;
    }
    if let Some(step) = in_last_rule(sides, task, rules, &cube.word) {
        return step;
    }
    if let Some(step) = in_last_entry(sides, task, entries, &cube.word) {
        return step;
    }
    let wanted = hint(sides, fronts, rules, entries, cube);
    match open_bit(&cube.word, wanted) {
        Some(bit) => Step::Halved(bit),
        None => last_step(sides, task, &cube.word),
    }
}
