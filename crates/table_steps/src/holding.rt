//! Entries that hold the words of others.

ghost use Rattle.std.specs.Bool.{OnTrue};
ghost use Rattle.table_steps.specs.Free.{words_of};
ghost use Rattle.word_cover.specs.Covers.{Covers};

use crate::parts::Parts;
use razor_limits::Memory;
use std::alloc::Global;
use ternary_words::{Entry, Word};
use word_cover::inside;

/// For each entry the place of the first new one that holds its word, or how many new ones there are.
///
/// Nothing is promised of it: it says where [`is_held`] looks.
pub(crate) fn holders(
    alloc: Global,
    entries: &[Entry],
    new: &[Entry],
) -> Result<Vec<usize>, Memory> {
    let places: Vec<usize> = (0..new.len()).collect(alloc)?;
    let mut parts = Parts::new(alloc, new)?;
    let mut holders = Vec::with_capacity(alloc, entries.len())?;
    for entry in entries {
        holders.push(parts.holder(new, &places, &entry.word)?)?;
    }
    Ok(holders)
}

/// Whether one of the entries stands at the place and holds the word.
pub(crate) fn is_held(entries: &[Entry], place: Option<usize>, word: &Word) -> bool
    ensures { OnTrue result (Covers (words_of entries.now) word.now) }
{
    let Some(place) = place else {
        return false;
    };
    if place >= entries.len() {
        return false;
    }
    inside(word, &entries[place].word)
}
