//! A table that is made anew, in the order of the one before.

use crate::places::{old_places, rising};
use crate::placing::{Placed, entries_placed, sink, spread};
use crate::room::Room;
use crate::rows::row_of;
use razor_limits::Memory;
use std::alloc::Global;
use ternary_words::Entry;
use word_cover::meets;

/// Entries of a table that is put in order at most: each is compared with all behind it.
const MOST_ORDERED: usize = 16_384;

/// An entry, where its word stood in the old table, and where it wants to stand among the old entries.
#[derive(Clone, Copy)]
struct Ranked {
    entry: Entry,
    old: Option<usize>,
    wish: usize,
}

impl Ranked {
    /// Whether both can't change places: some header matches both, and they decide otherwise.
    fn meets(&self, other: &Ranked) -> bool {
        let (a, b) = (self.entry, other.entry);
        a.decision != b.decision && meets(&a.word, &b.word)
    }
}

/// The entries in an order much like that of the old ones, which stand there in a memory: few writes lead from one table to the
/// other. Entries that can't change places keep their order: either the earlier one comes up, or the later one goes down,
/// whichever of both leaves more words in the old order. What doesn't stay then comes where there is room.
pub fn in_old_order(
    alloc: Global,
    old: &[Entry],
    room: &Room,
    new: &[Entry],
) -> Result<Vec<Entry>, Memory> {
    if old.len() > MOST_ORDERED || new.len() > MOST_ORDERED {
        return Ok(Vec::from_slice(alloc, new)?);
    }
    let mut up = with_wishes(alloc, old, new)?;
    let mut down = Vec::from_slice(alloc, &up)?;
    lift(&mut up);
    lower(&mut down);
    up.sort_by_key(|ranked: &Ranked| ranked.wish)?;
    down.sort_by_key(|ranked: &Ranked| ranked.wish)?;
    if in_order(alloc, &up)?.len() >= in_order(alloc, &down)?.len() {
        return parted(alloc, &up, room);
    }
    parted(alloc, &down, room)
}

/// The new entries: each wants to stand where its word stood, or else where the next one wants to.
fn with_wishes(alloc: Global, old: &[Entry], new: &[Entry]) -> Result<Vec<Ranked>, Memory> {
    let mut all = Vec::with_capacity(alloc, new.len())?;
    let mut wish = old.len();
    let places = old_places(alloc, old, new)?;
    for (entry, place) in new.iter().zip(&places).rev() {
        wish = place.unwrap_or(wish);
        all.push(Ranked {
            entry: *entry,
            old: *place,
            wish,
        })?;
    }
    all.reverse();
    Ok(all)
}

/// Has each entry come up to those behind it with which it can't change places.
fn lift(all: &mut Vec<Ranked>) {
    for done in 1..=all.len() {
        let place = all.len().saturating_sub(done);
        let wish = least_wish(all.as_slice(), place);
        set_wish(all, place, wish);
    }
}

/// Has each entry go down to those before it with which it can't change places.
fn lower(all: &mut Vec<Ranked>) {
    for place in 0..all.len() {
        let wish = greatest_wish(all.as_slice(), place);
        set_wish(all, place, wish);
    }
}

/// The least wish of the entry at a place and of those behind it that it meets.
fn least_wish(all: &[Ranked], place: usize) -> Option<usize> {
    let own = *all.get(place)?;
    let mut wish = own.wish;
    for other in all.get(place..)? {
        if own.meets(other) {
            wish = wish.min(other.wish);
        }
    }
    Some(wish)
}

/// The greatest wish of the entry at a place and of those before it that it meets.
fn greatest_wish(all: &[Ranked], place: usize) -> Option<usize> {
    let own = *all.get(place)?;
    let mut wish = own.wish;
    for other in all.get(..place)? {
        if own.meets(other) {
            wish = wish.max(other.wish);
        }
    }
    Some(wish)
}

/// Gives the entry at a place this wish.
fn set_wish(all: &mut Vec<Ranked>, place: usize, wish: Option<usize>) {
    let Some(wish) = wish else {
        return;
    };
    if let Some(ranked) = all.get_mut(place) {
        ranked.wish = wish;
    }
}

/// The most entries whose words stand in the old order, by their places in both.
fn in_order(alloc: Global, all: &[Ranked]) -> Result<Vec<(usize, usize)>, Memory> {
    let mut places = Vec::with_capacity(alloc, all.len())?;
    for ranked in all {
        places.push(ranked.old)?;
    }
    rising(alloc, &places)
}

/// The entries, those that don't stay where there is room between the old ones.
fn parted(alloc: Global, all: &[Ranked], room: &Room) -> Result<Vec<Entry>, Memory> {
    let mut rows = Vec::with_capacity(alloc, all.len())?;
    for ranked in all {
        rows.push(Placed {
            row: row_of(&ranked.entry),
            home: ranked.old,
            at_home: false,
        })?;
    }
    for (place, _) in &in_order(alloc, all)? {
        if let Some(placed) = rows.get_mut(*place) {
            placed.at_home = true;
        }
    }
    sink(&mut rows)?;
    spread(alloc, &mut rows, room)?;
    entries_placed(alloc, &rows)
}
