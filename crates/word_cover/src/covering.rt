//! Whether words cover a word.
//!
//! What lies outside the largest of the words must be covered by the others. It is the word's other half,
//! once for each trit that the largest word has and the word hasn't.

ghost use Rattle.std.specs.Prelude.{◌<◌, IfOk, length};
ghost use Rattle.std.specs.Bool.{OnTrue};
ghost use Rattle.word_cover.specs.Covers.{Covers, AreAmong};

use crate::sight::{Sight, look};
use crate::splits::{halves, only};
use crate::words::{inside, meets};
use razor_limits::Memory;
use std::alloc::Global;
use ternary_words::Word;

/// Whether each header that the word matches is matched by one of the words; no where that isn't seen in `budget` steps.
///
/// A step looks at some of the words once. A word that one of the words holds takes one step.
pub fn covered(alloc: Global, word: &Word, words: &[Word], budget: u32) -> Result<bool, Memory>
    ensures { IfOk result (λ yes. OnTrue yes (Covers words.now word.now)) }
{
    let mut steps = budget;
    let mut open = *word;
    covered_in(alloc, word, words, &mut steps, &mut open)
}

/// The same, with the steps that are left. Where it answers no and steps are left, `open` is a part of the word of
/// which the words hold too little; nothing is promised of it.
pub(crate) fn covered_in(
    alloc: Global,
    word: &Word,
    words: &[Word],
    steps: &mut u32,
    open: &mut Word,
) -> Result<bool, Memory>
    ensures { IfOk result (λ yes. OnTrue yes (Covers words.now word.now)) }
{
    if *steps == 0 {
        return Ok(false);
    }
    *steps -= 1;
    let place = match look(word, words) {
        Sight::Whole => return Ok(true),
        Sight::Few => {
            *open = *word;
            return Ok(false);
        }
        Sight::Largest(place) => place,
    };
    let others = others(alloc, word, words, place)?;
    let largest = words[place];
    let mut part = *word;
    let mut extra = largest.mask & !word.mask;
    for _ in 0..104u32 {
        if extra == 0 {
            break;
        }
        let bit = highest(extra);
        extra &= !only(bit);
        let (inner, outer) = halves(&part, bit, largest.value >> bit & 1 == 1);
        if !covered_in(alloc, &outer, others.as_slice(), steps, open)? {
            return Ok(false);
        }
        part = inner;
    }
    Ok(inside(&part, &largest))
}

/// The highest 1 of a number that has one below 104.
fn highest(number: u128) -> u32
    ensures { result < 104 }
{
    127u32.saturating_sub(number.leading_zeros()).min(103)
}

/// The words that meet the word, without the one at the place.
fn others(alloc: Global, word: &Word, words: &[Word], place: usize) -> Result<Vec<Word>, Memory>
    requires { place < length words.now }
    ensures fewer { IfOk result (λ some. length some.items < length words.now) }
    ensures among { IfOk result (λ some. AreAmong some.items words.now) }
{
    let mut some = Vec::new(alloc);
    for (k, other) in words.iter().enumerate() {
        if k != place && meets(other, word) {
            some.push(*other)?;
        }
    }
    Ok(some)
}
