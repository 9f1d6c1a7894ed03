//! Covers of open pairs: by the rules before the rule and the entries before the entry.
//!
//! A part of a pair that nothing covers has a header that list and table decide by different names. From the least one that
//! was found on headers need no cover any more; so what is left in the end is the least one of all.

use crate::covers::Covers;
use crate::cutting::{Cutting, Next};
use crate::sides::Sides;
use crate::tasks::Task;
use agreement_check::Pair;
use razor_limits::Memory;

/// What became of a pair.
#[derive(Clone, Copy, PartialEq, Eq)]
enum Fate {
    Covered,
    /// Nothing covers the header of the bound, which is lower now.
    Open,
    /// Too many words would have to be looked at.
    Ended,
}

/// Puts a cover of each pair behind the others, no steps where there is none; whether all are covered up to the bound.
pub(crate) fn cover_pairs(
    sides: &Sides,
    pairs: &[Pair],
    cutting: &mut Cutting,
    covers: &mut Covers,
) -> Result<bool, Memory> {
    for pair in pairs {
        match cover(sides, *pair, cutting)? {
            Fate::Covered => covers.push(cutting.steps())?,
            Fate::Open => covers.push(&[])?,
            Fate::Ended => return Ok(false),
        }
    }
    cover_open(sides, pairs, cutting, covers)
}

/// Covers the pairs once more that weren't covered up to the bound of then; whether all are covered up to that of now.
fn cover_open(
    sides: &Sides,
    pairs: &[Pair],
    cutting: &mut Cutting,
    covers: &mut Covers,
) -> Result<bool, Memory> {
    for (number, pair) in pairs.iter().enumerate() {
        if covers.steps(number).is_empty() {
            match cover(sides, *pair, cutting)? {
                Fate::Covered => covers.put(number, cutting.steps())?,
                _ => return Ok(false),
            }
        }
    }
    Ok(true)
}

/// Covers the pair, or lowers the bound to its least header that nothing covers.
fn cover(sides: &Sides, pair: Pair, cutting: &mut Cutting) -> Result<Fate, Memory> {
    let task = Task::of_pair(sides, pair);
    let mut fate = Fate::Covered;
    cutting.begin(sides, &task)?;
    for _ in 0..u64::MAX {
        match cutting.next_open(sides, &task)? {
            Next::Done => return Ok(fate),
            Next::Ended => return Ok(Fate::Ended),
            Next::Open(cube) => {
                cutting.bound = cube.value;
                fate = Fate::Open;
            }
        }
    }
    Ok(Fate::Ended)
}
