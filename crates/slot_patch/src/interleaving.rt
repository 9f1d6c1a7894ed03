//! How the entries between two pairs wish to be ordered: the new ones go where slots are free.
use crate::pair::Pair;
use razor_limits::Memory;
use std::alloc::Global;

/// Where the entries behind a pair begin, and the first slot behind it.
#[derive(Clone, Copy)]
struct Gap {
    start: Pair,
    low: usize,
}

/// For each old entry how many of so many new ones wish to come before it, where the old ones stand in these slots of so many.
pub(crate) fn order_wishes(
    alloc: Global,
    slots: &[u32],
    pairs: &[Pair],
    new: usize,
    count: usize,
) -> Result<Vec<usize>, Memory> {
    let mut wishes = Vec::with_capacity(alloc, slots.len())?;
    let mut gap = Gap {
        start: Pair { old: 0, new: 0 },
        low: 0,
    };
    for pair in pairs {
        let high = slot_or(slots, pair.old, count);
        push_gap(&mut wishes, slots, gap, *pair, high)?;
        wishes.push(pair.new)?;
        gap = Gap {
            start: Pair {
                old: pair.old.saturating_add(1),
                new: pair.new.saturating_add(1),
            },
            low: high.saturating_add(1),
        };
    }
    let end = Pair {
        old: slots.len(),
        new,
    };
    push_gap(&mut wishes, slots, gap, end, count)?;
    Ok(wishes)
}

/// The slot of an old entry, or this one where there is no such entry.
fn slot_or(slots: &[u32], old: usize, other: usize) -> usize {
    match slots.get(old) {
        Some(&slot) => slot as usize,
        None => other,
    }
}

/// Puts down the wishes of the old entries of a gap that ends with a pair in a slot.
fn push_gap(
    wishes: &mut Vec<usize>,
    slots: &[u32],
    gap: Gap,
    end: Pair,
    high: usize,
) -> Result<(), Memory> {
    let wanted = end.new.saturating_sub(gap.start.new);
    let olds = end.old.saturating_sub(gap.start.old);
    let free = high.saturating_sub(gap.low).saturating_sub(olds);
    for old in gap.start.old..end.old {
        let before = old.saturating_sub(gap.start.old);
        let passed = slot_or(slots, old, high)
            .saturating_sub(gap.low)
            .saturating_sub(before);
        let above = share(passed, wanted, free);
        wishes.push(gap.start.new.saturating_add(above))?;
    }
    Ok(())
}

/// How many of the wanted entries come into the slots that were passed, evenly over all of them.
fn share(passed: usize, wanted: usize, free: usize) -> usize {
    let parts = passed
        .saturating_add(1)
        .saturating_mul(wanted.saturating_add(1))
        .saturating_sub(1);
    parts.checked_div(free.saturating_add(1)).unwrap_or(0)
}
