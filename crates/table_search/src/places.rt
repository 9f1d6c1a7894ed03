//! Where the words of a table stood in an old one, and which of them stand in the old order.

use razor_limits::Memory;
use std::alloc::Global;
use ternary_words::Entry;

/// The place of each entry's word in the old table, if it has one there.
pub(crate) fn old_places(
    alloc: Global,
    old: &[Entry],
    new: &[Entry],
) -> Result<Vec<Option<usize>>, Memory> {
    let mut places = Vec::with_capacity(alloc, new.len())?;
    let mut next = 0_usize;
    for entry in new {
        let place = place_from(old, next, entry);
        if let Some(place) = place {
            next = place.saturating_add(1);
        }
        places.push(place)?;
    }
    Ok(places)
}

/// The place of an entry's word, which mostly stands at the place that is asked first.
fn place_from(old: &[Entry], first: usize, entry: &Entry) -> Option<usize> {
    let has_word = |other: &Entry| other.word == entry.word;
    match old.get(first..).unwrap_or(&[]).iter().position(has_word) {
        Some(further) => Some(first.saturating_add(further)),
        None => old.iter().position(has_word),
    }
}

/// The most of the places that rise, each behind its number in the list.
pub(crate) fn rising(
    alloc: Global,
    places: &[Option<usize>],
) -> Result<Vec<(usize, usize)>, Memory> {
    // For each length the least place with which so many can end, and its number; and for each number the one before.
    let mut ends: Vec<(usize, usize)> = Vec::new(alloc);
    let mut before: Vec<Option<usize>> = Vec::with_capacity(alloc, places.len())?;
    for (number, place) in places.iter().enumerate() {
        let Some(place) = *place else {
            before.push(None)?;
            continue;
        };
        let length = ends.partition_point(|end: &(usize, usize)| end.0 < place);
        let under = length.checked_sub(1).and_then(|under| ends.get(under));
        before.push(under.map(|end| end.1))?;
        match ends.get_mut(length) {
            Some(end) => *end = (place, number),
            None => ends.push((place, number))?,
        }
    }
    let mut found = Vec::with_capacity(alloc, ends.len())?;
    let mut next = ends.last().map(|end| end.1);
    for _ in 0..ends.len() {
        let Some(number) = next else {
            break;
        };
        if let Some(Some(place)) = places.get(number).copied() {
            found.push((number, place))?;
        }
        next = before.get(number).copied().flatten();
    }
    found.reverse();
    Ok(found)
}
