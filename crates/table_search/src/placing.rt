//! Where the new rows of a table stand among the old ones.

use crate::room::Room;
use crate::rows::entry_of;
use crate::spots::Spot;
use entry_index::SearchEntry;
use razor_limits::Memory;
use std::alloc::Global;
use ternary_words::Entry;
use word_cover::meets;

/// A row of a repaired table.
#[derive(Clone, Copy)]
pub(crate) struct Placed {
    pub row: SearchEntry,
    /// Its place in the old table; of a new row that of the old one with its word, if there was one.
    pub home: Option<usize>,
    /// Whether it stands there.
    pub at_home: bool,
}

/// Moves the new rows up, from the first to the last, each to a place below the last row that it may not pass: to where the old
/// row with its word stood, or else to where there is room between old rows.
///
/// In the place of the old row it takes its slot, by one write. The others want a free slot, and rows that went down as far as
/// they can stand close together.
pub(crate) fn spread(alloc: Global, rows: &mut Vec<Placed>, room: &Room) -> Result<(), Memory> {
    let mut room = room.copy()?;
    for place in 0..rows.len() {
        let Some(placed) = rows.get(place).copied() else {
            return Ok(());
        };
        if !placed.at_home {
            let (to, at_home) = place_for(alloc, &placed, rows, place, &mut room)?;
            move_row(rows, place, to, at_home)?;
        }
    }
    Ok(())
}

/// Where the new row at this place comes, and whether it is at home there. It takes a free slot where it isn't.
fn place_for(
    alloc: Global,
    placed: &Placed,
    rows: &[Placed],
    place: usize,
    room: &mut Room,
) -> Result<(usize, bool), Memory> {
    let above = rows.get(..place).unwrap_or(&[]);
    let below = rows.get(place.saturating_add(1)..).unwrap_or(&[]);
    let free = free_above(&placed.row, above);
    if let Some(to) = home_within(placed, above, below, free) {
        return Ok((to, true));
    }
    let Some(spot) = Spot::best(alloc, above, below, free, room)? else {
        return Ok((place, false));
    };
    room.take(spot.gaps);
    Ok((spot.to, false))
}

/// Moves the new rows down, from the last to the first, as far as they can go.
pub(crate) fn sink(rows: &mut Vec<Placed>) -> Result<(), Memory> {
    for done in 1..=rows.len() {
        let place = rows.len().saturating_sub(done);
        let Some(placed) = rows.get(place).copied() else {
            return Ok(());
        };
        if !placed.at_home {
            let further = free_below(&placed.row, rows, place);
            move_row(rows, place, place.saturating_add(further), false)?;
        }
    }
    Ok(())
}

/// How many of the rows behind a place the row may pass.
fn free_below(row: &SearchEntry, rows: &[Placed], place: usize) -> usize {
    rows.get(place.saturating_add(1)..)
        .unwrap_or(&[])
        .iter()
        .take_while(|other| other.lets_pass(row))
        .count()
}

/// How many of the rows above it the row may pass: those behind the last one that meets it and decides otherwise.
fn free_above(row: &SearchEntry, above: &[Placed]) -> usize {
    above
        .iter()
        .rev()
        .take_while(|other| other.lets_pass(row))
        .count()
}

/// Where the row is at home among those above it, of which it may pass so many; none where it can't stand at home.
fn home_within(placed: &Placed, above: &[Placed], below: &[Placed], free: usize) -> Option<usize> {
    let home = placed.home?;
    let to = match first_behind(above, home) {
        Some(to) => to,
        None if begins_behind(below, home) => above.len(),
        None => return None,
    };
    if above.len().saturating_sub(to) > free {
        return None;
    }
    Some(to)
}

/// The first of the rows whose home is behind this one.
fn first_behind(rows: &[Placed], home: usize) -> Option<usize> {
    rows.iter().position(|other| other.is_behind(home))
}

/// Whether the first of the rows that are at home is behind this one.
fn begins_behind(rows: &[Placed], home: usize) -> bool {
    rows.iter()
        .find(|other| other.at_home)
        .is_none_or(|other| other.is_behind(home))
}

impl Placed {
    /// Whether the row stands at a home that is behind this one.
    fn is_behind(&self, home: usize) -> bool {
        self.at_home && self.home.is_some_and(|own| own > home)
    }

    /// Whether the other row may pass it: they decide alike, or no header matches both.
    fn lets_pass(&self, other: &SearchEntry) -> bool {
        self.row.decision == other.decision || !meets(&self.row.word, &other.word)
    }

    /// The place of the row in the old table, if it stands there.
    pub fn stays(&self) -> Option<usize> {
        if self.at_home { self.home } else { None }
    }
}

/// Moves the row at a place to another, where it is at home or not.
fn move_row(rows: &mut Vec<Placed>, place: usize, to: usize, at_home: bool) -> Result<(), Memory> {
    if place >= rows.len() || to >= rows.len() {
        return Ok(());
    }
    let placed = rows.remove(place);
    rows.insert(to, Placed { at_home, ..placed })?;
    Ok(())
}

/// The entries of the rows.
pub(crate) fn entries_placed(alloc: Global, rows: &[Placed]) -> Result<Vec<Entry>, Memory> {
    let mut entries = Vec::with_capacity(alloc, rows.len())?;
    for placed in rows {
        entries.push(entry_of(&placed.row))?;
    }
    Ok(entries)
}
