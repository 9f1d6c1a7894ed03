//! Where a list and a table differ.

use crate::cutting::{Cutting, Next};
use crate::effort::CUBES_OF_PAIR;
use crate::search::Search;
use crate::sides::Sides;
use crate::tasks::Task;
use agreement_check::Pair;
use field_boxes::RuleList;
use razor_limits::Memory;
use std::alloc::Global;
use ternary_words::{Table, Word};

/// A rule and an entry that come first on the headers of the cubes, and decide by different names.
#[derive(Drop)]
pub struct Difference {
    pub pair: Pair,
    /// Disjoint cubes; none where they are too many.
    pub cubes: Vec<Word>,
}

/// Where a list and a table differ. Nothing is promised of it.
#[derive(Drop)]
pub struct Differences {
    /// By rising entries, and for one entry by rising rules.
    pub parts: Vec<Difference>,
    /// Whether the cubes have all headers that list and table decide by different names.
    pub are_all: bool,
}

/// Searches for all headers that list and table decide by different names.
///
/// It ends when it has found so many pairs of a rule and an entry, or has looked at about so many words; cubes are found as
/// long as they are not above so many.
pub fn find_differences(
    alloc: Global,
    list: &RuleList,
    table: &Table,
    most: usize,
    words: u64,
) -> Result<Differences, Memory> {
    let sides = Sides::new(alloc, list, table)?;
    let mut search = Search::of(alloc, &sides, words)?;
    let mut parts = Vec::new(alloc);
    let mut are_all = search.has_all;
    let mut left = most;
    for pair in &search.pairs {
        let open = open_cubes(alloc, &sides, *pair, left, &mut search.cutting)?;
        are_all = are_all && open.are_all;
        left = left.saturating_sub(open.cubes.len());
        if open.cubes.is_empty() && open.are_all {
            continue;
        }
        parts.push(Difference {
            pair: *pair,
            cubes: open.cubes,
        })?;
        if parts.len() > most || search.cutting.left == 0 {
            are_all = false;
            break;
        }
    }
    Ok(Differences { parts, are_all })
}

/// The cubes of a pair that nothing covers, and whether these are all.
#[derive(Drop)]
struct Open {
    cubes: Vec<Word>,
    are_all: bool,
}

/// The cubes of the pair that nothing covers; none where they are more than so many.
fn open_cubes(
    alloc: Global,
    sides: &Sides,
    pair: Pair,
    most: usize,
    cutting: &mut Cutting,
) -> Result<Open, Memory> {
    let task = Task::of_pair(sides, pair);
    let mut cubes = Vec::new(alloc);
    cutting.begin(sides, &task)?;
    for _ in 0..CUBES_OF_PAIR.min(most).saturating_add(1) {
        match cutting.next_open(sides, &task)? {
            Next::Open(cube) => cubes.push(cube)?,
            Next::Done => {
                return Ok(Open {
                    cubes,
                    are_all: true,
                });
            }
            Next::Ended => break,
        }
    }
    cubes.clear();
    Ok(Open {
        cubes,
        are_all: false,
    })
}
