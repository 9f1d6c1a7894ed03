//! Cubes covered by cubes.

ghost use Rattle.std.specs.Prelude.{◌≤◌};

use crate::fields::highest;
use crate::search_entry::SearchEntry;
use razor_limits::Memory;
use ternary_words::Word;
use word_cover::{fixed, meets};

/// Splits that one question may cost; past that the answer is no.
const SPLITS: u32 = 2000;

/// What the words that meet a cube say of it by their sizes alone.
enum Sizes {
    /// One of them holds all of it.
    Whole,
    /// Together they are too small to hold all of it.
    Short,
    /// They may, and this is the largest.
    Largest(Word),
}

/// Whether the words hold every header of the cube; false too where that is too hard to see. The scratch
/// is left as it was.
pub fn covered(cube: Word, words: &[Word], scratch: &mut Vec<Word>) -> Result<bool, Memory> {
    let from = scratch.len();
    for word in words {
        if meets(word, &cube) {
            scratch.push(*word)?;
        }
    }
    let covered = covered_at(cube, scratch, from)?;
    scratch.truncate(from);
    Ok(covered)
}

/// Whether the rows hold every header of the cube; false too where that is too hard to see. The scratch is
/// left as it was.
pub fn covered_by(
    cube: Word,
    rows: &[SearchEntry],
    scratch: &mut Vec<Word>,
) -> Result<bool, Memory> {
    let from = scratch.len();
    for row in rows {
        if meets(&row.word, &cube) {
            scratch.push(row.word)?;
        }
    }
    let covered = covered_at(cube, scratch, from)?;
    scratch.truncate(from);
    Ok(covered)
}

/// Whether `words[from..]` hold every header of the cube; the words are left as they were.
pub(crate) fn covered_at(cube: Word, words: &mut Vec<Word>, from: usize) -> Result<bool, Memory> {
    let mut splits = SPLITS;
    covered_in(cube, words, from, &mut splits)
}

/// The same, in at most so many splits, which count down.
#[inline(never)]
#[cycle(covering)]
fn covered_in(
    cube: Word,
    words: &mut Vec<Word>,
    from: usize,
    splits: &mut u32,
) -> Result<bool, Memory>
    ensures { splits.new ≤ splits.old }
{
    if *splits == 0 {
        return Ok(false);
    }
    *splits -= 1;
    let to = words.len();
    let covered = match gather(cube, words, from)? {
        Sizes::Whole => true,
        Sizes::Short => false,
        Sizes::Largest(largest) => covered_beside(cube, largest, words, to, splits)?,
    };
    words.truncate(to);
    Ok(covered)
}

/// Whether `words[from..]` hold what lies outside of the largest word, half by half.
#[cycle(covering)]
fn covered_beside(
    mut cube: Word,
    largest: Word,
    words: &mut Vec<Word>,
    from: usize,
    splits: &mut u32,
) -> Result<bool, Memory>
    ensures { splits.new ≤ splits.old }
{
    let mut extra = largest.mask & !cube.mask;
    for _ in 0..128u32 {
        if extra == 0 {
            break;
        }
        let bit = highest(extra);
        extra ^= bit;
        if !covered_in(fixed(&cube, bit, !largest.value), words, from, splits)? {
            return Ok(false);
        }
        cube = fixed(&cube, bit, largest.value);
    }
    Ok(true)
}

/// Pushes those of `words[from..]` that meet the cube behind all, but the largest.
#[inline]
fn gather(cube: Word, words: &mut Vec<Word>, from: usize) -> Result<Sizes, Memory> {
    let mut volume = 0u128;
    let mut fewest = u32::MAX;
    let mut largest = 0;
    for k in from..words.len() {
        let Some(&word) = words.get(k) else {
            break;
        };
        if !meets(&word, &cube) {
            continue;
        }
        let extra = (word.mask & !cube.mask).count_ones();
        if extra == 0 {
            return Ok(Sizes::Whole);
        }
        volume = volume.saturating_add(1 << 104u32.saturating_sub(extra));
        if extra < fewest {
            fewest = extra;
            largest = words.len();
        }
        words.push(word)?;
    }
    if volume < 1 << 104 || largest >= words.len() {
        return Ok(Sizes::Short);
    }
    Ok(Sizes::Largest(words.swap_remove(largest)))
}
