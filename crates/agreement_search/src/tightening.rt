//! Claims that reach less far, so that fewer pairs are open.
//!
//! A rule with two open pairs or more is covered anew by what comes before where its claim reaches, then, as long as that
//! goes, by what comes before the last entry that the cover names. Entries likewise.

use crate::candidates::Candidate;
use crate::claims::{Claims, Named};
use crate::cutting::Cutting;
use crate::effort::STEPS_A_PAIR;
use crate::open_pairs::owner;
use crate::sides::Sides;
use crate::tasks::Task;
use agreement_check::{Pair, Step};
use razor_limits::Memory;
use std::alloc::Global;

/// The open pairs of a rule or of an entry: how many they are, and one in their middle.
#[derive(Clone, Copy)]
struct Share {
    count: usize,
    seen: usize,
    middle: Option<Pair>,
}

/// No pair.
const NONE: Share = Share {
    count: 0,
    seen: 0,
    middle: None,
};

/// Covers anew what has two of the pairs or more: entries, whose claims name rules, or rules, whose claims name entries.
pub(crate) fn tighten(
    alloc: Global,
    sides: &Sides,
    pairs: &[Pair],
    most: usize,
    cutting: &mut Cutting,
    claims: &mut Claims,
) -> Result<(), Memory> {
    let named = claims.named();
    let shares = shares_of(alloc, pairs, named)?;
    let mut best = Vec::new(alloc);
    for (place, share) in shares.iter().enumerate() {
        if share.count < 2 {
            continue;
        }
        let place = (place % (1 << 32)) as u32;
        let reach = claims.reach(place);
        let task = task_of(sides, named, place, reach, most);
        if tightest(sides, &task, named, cutting, &mut best)?
            && named.reach(&best) < reach
            && is_worth(sides, share, best.len(), cutting)?
        {
            claims.put(place, &best)?;
        }
    }
    Ok(())
}

/// The shares of these pairs, each under the place of its entry, where rules are named, or of its rule.
fn shares_of(alloc: Global, pairs: &[Pair], named: Named) -> Result<Vec<Share>, Memory> {
    let mut shares = Vec::new(alloc);
    for pair in pairs {
        let place = owner(*pair, named) as usize;
        if shares.len() <= place {
            shares.resize(place.saturating_add(1), NONE)?;
        }
        if let Some(share) = shares.get_mut(place) {
            share.count = share.count.saturating_add(1);
        }
    }
    for pair in pairs {
        if let Some(share) = shares.get_mut(owner(*pair, named) as usize) {
            if share.seen <= share.count / 2 {
                share.middle = Some(*pair);
            }
            share.seen = share.seen.saturating_add(1);
        }
    }
    Ok(shares)
}

/// What is to be covered anew.
fn task_of(sides: &Sides, named: Named, place: u32, reach: u32, most: usize) -> Task {
    match named {
        Named::Rules => Task::of_entry(sides, place, reach, most),
        Named::Entries => Task::of_rule(sides, place, reach, most),
    }
}

/// Puts the cover that reaches least far into `best`, if there is one.
fn tightest(
    sides: &Sides,
    task: &Task,
    named: Named,
    cutting: &mut Cutting,
    best: &mut Vec<Step>,
) -> Result<bool, Memory> {
    cutting.begin(sides, task)?;
    best.clear();
    let mut count = cutting.candidates().len();
    for _ in 0..count.saturating_add(1) {
        if !cutting.covers_again(sides, task, count)? {
            break;
        }
        best.clear();
        best.extend_from_slice(cutting.steps())?;
        match last_named(cutting.candidates(), named, named.reach(best)) {
            Some(place) => count = place,
            None => break,
        }
    }
    Ok(!best.is_empty())
}

/// Which of the candidates is the last one that is named.
fn last_named(candidates: &[Candidate], named: Named, reach: u32) -> Option<usize> {
    let place = named.at(reach.checked_sub(1)?);
    candidates
        .iter()
        .position(|candidate| candidate.place == place)
}

/// Whether a cover of so many steps takes fewer than the covers of the pairs that it may save.
fn is_worth(
    sides: &Sides,
    share: &Share,
    steps: usize,
    cutting: &mut Cutting,
) -> Result<bool, Memory> {
    if steps <= share.count.saturating_mul(STEPS_A_PAIR) {
        return Ok(true);
    }
    let Some(middle) = share.middle else {
        return Ok(false);
    };
    if !cutting.covers(sides, &Task::of_pair(sides, middle))? {
        return Ok(false);
    }
    Ok(steps <= share.count.saturating_mul(cutting.steps().len()))
}
