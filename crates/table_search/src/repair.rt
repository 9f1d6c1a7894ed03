//! The repair of a short table whose list was edited.

use crate::mending::Mending;
use crate::room::Room;
use crate::rows::push_rows;
use crate::saying::said;
use razor_limits::Memory;
use std::alloc::Global;
use ternary_words::{Entry, Word};

/// Entries for a list that was edited, from those that stood for it before; most of them stay. None where too much was edited.
///
/// `list` are the entries of the list as it is now, and `words` those of the edit: outside of them nothing changed. New entries come
/// where there is room between the old ones.
pub fn repaired(
    alloc: Global,
    old: &[Entry],
    room: &Room,
    list: &[Entry],
    words: &[Word],
) -> Result<Option<Vec<Entry>>, Memory> {
    let cubes = cubes_of(alloc, words)?;
    let mut rows = Vec::with_capacity(alloc, list.len())?;
    push_rows(&mut rows, list, false)?;
    let Some(front) = said(alloc, &rows, &cubes)? else {
        return Ok(None);
    };
    let mut mending = Mending::new(alloc, front, old)?;
    mending.settle(&cubes)?;
    Ok(Some(mending.entries(room)?))
}

/// The words' cubes, the widest first.
fn cubes_of(alloc: Global, words: &[Word]) -> Result<Vec<Word>, Memory> {
    let mut cubes = Vec::with_capacity(alloc, words.len())?;
    for word in words {
        cubes.push(*word)?;
    }
    cubes.sort_unstable_by_key(|cube: &Word| (cube.mask.count_ones(), cube.mask, cube.value));
    Ok(cubes)
}
