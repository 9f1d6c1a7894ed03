//! Of the rules and entries before some limits those that share most headers with a cube.

use crate::candidates::{Candidate, Place};
use crate::sides::Sides;
use crate::tasks::{Rather, Task};
use razor_limits::Memory;
use ternary_words::Word;

/// Shares are below this number.
const SHARES: u32 = 1024;

/// Whether no candidate was left out, and how many words were looked at.
#[derive(Clone, Copy)]
pub(crate) struct Gathered {
    pub are_all: bool,
    pub looked: usize,
}

/// Puts the task's candidates for the cube behind the others: those of the kind that is named rather first, and each kind by
/// rising places.
pub(crate) fn gather(
    sides: &Sides,
    task: &Task,
    cube: &Word,
    candidates: &mut Vec<Candidate>,
) -> Result<Gathered, Memory> {
    let from = candidates.len();
    let mut looked = 0;
    if task.rules > 0 {
        looked = sides
            .list
            .index
            .push_meeting(cube, Place::Rule(task.rules), candidates)?;
        drop_missing(sides, cube, from, candidates);
    }
    if task.entries > 0 {
        looked = looked.saturating_add(
            sides
                .table
                .index
                .push_meeting(cube, Place::Entry(task.entries), candidates)?,
        );
    }
    let are_all = candidates.len().saturating_sub(from) <= task.at_once;
    if !are_all {
        keep_most(sides, cube, from, task.at_once, candidates);
    }
    if let Some(found) = candidates.as_mut_slice().get_mut(from..) {
        found.sort_unstable_by_key(|one: &Candidate| order(task.rather, one.place));
    }
    Ok(Gathered { are_all, looked })
}

/// Where the candidate stands among the others: first those that are named rather.
fn order(rather: Rather, place: Place) -> (bool, u32) {
    match place {
        Place::Rule(number) => (rather == Rather::Entries, number),
        Place::Entry(number) => (rather == Rather::Rules, number),
    }
}

/// Adds the ports of rules to the candidates from one on, and drops those that have none of the cube's.
fn drop_missing(sides: &Sides, cube: &Word, from: usize, candidates: &mut Vec<Candidate>) {
    let mut to = from;
    for k in from..candidates.len() {
        let Some(&(mut candidate)) = candidates.get(k) else {
            break;
        };
        candidate.add_ports(sides);
        if !candidate.misses_ports(sides, cube) {
            if let Some(kept) = candidates.get_mut(to) {
                *kept = candidate;
            }
            to = to.saturating_add(1);
        }
    }
    candidates.truncate(to);
}

/// Keeps of the candidates from one on so many that share most with the cube.
fn keep_most(
    sides: &Sides,
    cube: &Word,
    from: usize,
    most: usize,
    candidates: &mut Vec<Candidate>,
) {
    let mut counts = [0usize; 1024];
    for k in from..candidates.len() {
        if let Some(candidate) = candidates.get_mut(k) {
            candidate.reckon(sides, cube);
            if let Some(count) = counts.get_mut(candidate.share as usize) {
                *count = count.saturating_add(1);
            }
        }
    }
    let (least, mut left) = least_share(&counts, most);
    let mut to = from;
    for k in from..candidates.len() {
        let Some(&candidate) = candidates.get(k) else {
            break;
        };
        if candidate.share < least || candidate.share == least && left == 0 {
            continue;
        }
        if candidate.share == least {
            left = left.saturating_sub(1);
        }
        if let Some(kept) = candidates.get_mut(to) {
            *kept = candidate;
        }
        to = to.saturating_add(1);
    }
    candidates.truncate(to);
}

/// The least share that is kept where so many are, and how many of those that have it.
fn least_share(counts: &[usize], most: usize) -> (u32, usize) {
    let mut left = most;
    for share in (0..SHARES).rev() {
        let count = counts.get(share as usize).copied().unwrap_or(0);
        if left < count {
            return (share, left);
        }
        left -= count;
    }
    (0, left)
}
