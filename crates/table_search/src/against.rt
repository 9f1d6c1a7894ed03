//! Headers that tell how many exceptions a wider cube needs at least.

use entry_index::{SearchEntry, View};
use razor_limits::Memory;
use std::alloc::Global;
use ternary_words::Word;
use word_cover::{holds, inside, meet, meets};

/// Rows that are asked about for one cube; more where few exceptions are allowed.
const ASKS: usize = 4;

/// Exceptions that are few.
const FEW: usize = 12;

/// The bits of a header.
const HEADER: u128 = (1 << 104) - 1;

/// A header, and the place of the row that answers it.
#[derive(Clone, Copy)]
struct Witness {
    header: u128,
    place: usize,
}

/// Headers of a view that are answered otherwise than by its entry and are hidden by nothing before it, at most
/// one for each row behind the entry.
#[derive(Drop)]
pub(crate) struct Against {
    asked: Vec<bool>,
    witnesses: Vec<Witness>,
}

impl Against {
    /// No headers.
    pub fn new(alloc: Global) -> Against {
        Against {
            asked: Vec::new(alloc),
            witnesses: Vec::new(alloc),
        }
    }

    /// Begins with a view of so many rows.
    pub fn begin(&mut self, rows: usize) -> Result<(), Memory> {
        self.witnesses.clear();
        self.asked.clear();
        self.asked.resize(rows, false)?;
        Ok(())
    }

    /// How many exceptions the cube needs at least in place of the entry's; counting ends above `most`.
    pub fn count(
        &mut self,
        view: &View,
        entry: &SearchEntry,
        cube: Word,
        most: usize,
    ) -> Result<usize, Memory> {
        let mut count = self.held(cube);
        let mut asks = if most < FEW { most + ASKS } else { ASKS };
        for (place, row) in view.rows.iter().enumerate().skip(view.at) {
            if count > most || asks == 0 {
                break;
            }
            if row.decision == entry.decision || self.is_asked(place) || !meets(&row.word, &cube) {
                continue;
            }
            let both = meet(&row.word, &cube);
            if inside(&both, &entry.word) {
                continue;
            }
            asks -= 1;
            self.mark(place);
            let header = both.value | !entry.word.value & !both.mask & HEADER;
            if self.witness(view, entry, Witness { header, place })? {
                count = count.saturating_add(1);
            }
        }
        Ok(count)
    }

    /// How many of the headers the cube holds.
    fn held(&self, cube: Word) -> usize {
        self.witnesses
            .iter()
            .filter(|known| holds(&cube, known.header))
            .count()
    }

    fn is_asked(&self, place: usize) -> bool {
        self.asked.get(place).copied().unwrap_or(true)
    }

    fn mark(&mut self, place: usize) {
        if let Some(asked) = self.asked.get_mut(place) {
            *asked = true;
        }
    }

    /// Notes a header where it is answered otherwise than by the entry, by a row of which none is known. Whether
    /// it was noted.
    fn witness(
        &mut self,
        view: &View,
        entry: &SearchEntry,
        asked: Witness,
    ) -> Result<bool, Memory> {
        let place = first(&view.rows, asked.header).unwrap_or(asked.place);
        let other = view
            .rows
            .get(place)
            .is_some_and(|row| row.decision != entry.decision);
        if place < view.at || !other || self.witnesses.iter().any(|known| known.place == place) {
            return Ok(false);
        }
        self.mark(place);
        self.witnesses.push(Witness {
            header: asked.header,
            place,
        })?;
        Ok(true)
    }
}

/// The place of the first row that holds the header.
fn first(rows: &[SearchEntry], header: u128) -> Option<usize> {
    rows.iter().position(|row| holds(&row.word, header))
}
