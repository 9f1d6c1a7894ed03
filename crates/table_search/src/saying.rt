//! What a list says inside of cubes.

use crate::effort::MOST_SAID;
use entry_index::{SearchEntry, covered, covered_by};
use razor_limits::Memory;
use std::alloc::Global;
use ternary_words::Word;
use word_cover::{meet, meets};

/// Rows that say what a list says inside of cubes, the cubes' one after another.
#[derive(Drop)]
struct Saying {
    alloc: Global,
    rows: Vec<SearchEntry>,
    scratch: Vec<Word>,
}

/// What the list says inside of the cubes; none where that are too many rows.
pub(crate) fn said(
    alloc: Global,
    list: &[SearchEntry],
    cubes: &[Word],
) -> Result<Option<Vec<SearchEntry>>, Memory> {
    let mut saying = Saying {
        alloc,
        rows: Vec::new(alloc),
        scratch: Vec::new(alloc),
    };
    for (place, cube) in cubes.iter().enumerate() {
        if !is_said(cubes, place, *cube, &mut saying.scratch)? {
            saying.add(list, *cube)?;
        }
        if saying.rows.len() > MOST_SAID {
            return Ok(None);
        }
    }
    Ok(Some(saying.rows))
}

/// Whether the cubes before the place cover the cube.
fn is_said(
    cubes: &[Word],
    place: usize,
    cube: Word,
    scratch: &mut Vec<Word>,
) -> Result<bool, Memory> {
    match cubes.get(..place) {
        Some(before) => covered(cube, before, scratch),
        None => Ok(false),
    }
}

impl Saying {
    /// Adds what the list says inside of the cube.
    fn add(&mut self, list: &[SearchEntry], cube: Word) -> Result<(), Memory> {
        let from = self.rows.len();
        for row in list {
            if !meets(&row.word, &cube) {
                continue;
            }
            let both = meet(&cube, &row.word);
            self.add_seen(from, both, row.decision)?;
            if both == cube || self.rows.len() > MOST_SAID {
                return Ok(());
            }
        }
        self.add_seen(from, cube, 0)
    }

    /// Adds a row, if those from this one on don't hold all of it.
    fn add_seen(&mut self, from: usize, cube: Word, decision: u32) -> Result<(), Memory> {
        let above = self.rows.as_slice().get(from..).unwrap_or(&[]);
        if !covered_by(cube, above, &mut self.scratch)? {
            self.rows.push(SearchEntry {
                word: cube,
                decision,
                is_fixed: false,
            })?;
        }
        Ok(())
    }
}
