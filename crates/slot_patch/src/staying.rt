//! Which slots the entries of a layout wish for: as many old entries as can stay where they are, and the others come evenly
//! between them.
use crate::layout::Layout;
use razor_limits::Memory;
use std::alloc::Global;

/// An old entry that may stay in its slot.
#[derive(Clone, Copy)]
struct Stay {
    place: u32,
    slot: u32,
}

impl Stay {
    /// How far the slot is behind the place.
    fn shift(&self) -> u32 {
        self.slot.saturating_sub(self.place)
    }
}

/// The slot that each place of the layout wishes for, of so many, where the old entries stand in these slots.
pub(crate) fn slot_wishes(
    alloc: Global,
    compact: &Layout,
    slots: &[u32],
    count: usize,
) -> Result<Vec<usize>, Memory> {
    let mut stays = could_stay(alloc, compact, slots, count)?;
    if !rise(&stays) {
        stays = longest_rising(alloc, &stays)?;
    }
    let mut wishes = Vec::with_capacity(alloc, compact.start.len())?;
    let mut low = 0;
    for stay in &stays {
        let slot = stay.slot as usize;
        push_even(&mut wishes, stay.place as usize, low, slot)?;
        wishes.push(slot)?;
        low = slot.saturating_add(1);
    }
    push_even(&mut wishes, compact.start.len(), low, count)?;
    Ok(wishes)
}

/// Puts down wishes as far as to a place, evenly over the slots from one on and below another.
fn push_even(wishes: &mut Vec<usize>, end: usize, low: usize, high: usize) -> Result<(), Memory> {
    let first = wishes.len();
    let parts = end.saturating_sub(first).saturating_add(1);
    let room = high.saturating_sub(low).saturating_add(1);
    for place in first..end {
        let part = place.saturating_sub(first).saturating_add(1);
        let share = part.saturating_mul(room).checked_div(parts);
        wishes.push(low.saturating_add(share.unwrap_or(0)).saturating_sub(1))?;
    }
    Ok(())
}

/// The old entries whose slots leave room for the places before and behind theirs.
fn could_stay(
    alloc: Global,
    compact: &Layout,
    slots: &[u32],
    count: usize,
) -> Result<Vec<Stay>, Memory> {
    let slack = count.saturating_sub(compact.start.len());
    let mut stays = Vec::with_capacity(alloc, slots.len())?;
    let mut old = 0_usize;
    for place in 0..compact.start.len() {
        if compact.start[place].is_some() {
            push_stay(&mut stays, slots.get(old), place, slack)?;
            old = old.saturating_add(1);
        }
    }
    Ok(stays)
}

/// Puts down the old entry of a place, if its slot leaves room.
fn push_stay(
    stays: &mut Vec<Stay>,
    slot: Option<&u32>,
    place: usize,
    slack: usize,
) -> Result<(), Memory> {
    if let Some(&slot) = slot {
        let shift = (slot as usize).checked_sub(place);
        if shift.is_some_and(|shift| shift <= slack) {
            stays.push(Stay {
                place: place as u32,
                slot,
            })?;
        }
    }
    Ok(())
}

/// The shift of one; 0 where there is none.
fn shift(stays: &[Stay], number: u32) -> u32 {
    match stays.get(number as usize) {
        Some(stay) => stay.shift(),
        None => 0,
    }
}

/// Whether no shift is less than the one before it.
fn rise(stays: &[Stay]) -> bool {
    let mut least = 0;
    for stay in stays {
        if stay.shift() < least {
            return false;
        }
        least = stay.shift();
    }
    true
}

/// The most of them whose shifts don't fall, by piles.
fn longest_rising(alloc: Global, stays: &[Stay]) -> Result<Vec<Stay>, Memory> {
    let mut tops: Vec<u32> = Vec::with_capacity(alloc, stays.len())?;
    let mut before: Vec<Option<u32>> = Vec::with_capacity(alloc, stays.len())?;
    let mut number = 0_u32;
    for stay in stays {
        let pile = pile_for(stays, &tops, stay.shift());
        before.push(
            pile.checked_sub(1)
                .and_then(|under| tops.get(under).copied()),
        )?;
        if pile < tops.len() {
            tops[pile] = number;
        } else {
            tops.push(number)?;
        }
        number = number.saturating_add(1);
    }
    back_from(alloc, stays, &before, tops.last().copied())
}

/// The first pile on whose top the shift is greater, or the one behind all; mostly it is that one.
fn pile_for(stays: &[Stay], tops: &[u32], here: u32) -> usize {
    match tops.last() {
        Some(&top) if shift(stays, top) > here => {
            tops.partition_point(|&top| shift(stays, top) <= here)
        }
        _ => tops.len(),
    }
}

/// The chain that ends with this one.
fn back_from(
    alloc: Global,
    stays: &[Stay],
    before: &[Option<u32>],
    last: Option<u32>,
) -> Result<Vec<Stay>, Memory> {
    let mut chain = Vec::with_capacity(alloc, stays.len())?;
    let mut at = last;
    for _ in 0..stays.len() {
        let Some(number) = at else {
            break;
        };
        if let Some(stay) = stays.get(number as usize) {
            chain.push(*stay)?;
        }
        at = match before.get(number as usize) {
            Some(&next) => next,
            None => None,
        };
    }
    chain.reverse();
    Ok(chain)
}
