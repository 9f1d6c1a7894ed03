//! Slots of rows, in order.

use crate::cells::Cells;
use crate::fields::leads;
use crate::links::Links;
use crate::search_entry::SearchEntry;
use crate::sets::Sets;
use razor_limits::Memory;
use std::alloc::Global;
use ternary_words::Word;

/// Decisions are told apart by this many sets of slots.
const KINDS: u32 = 16;
/// Rows that a cell of a field holds at least before it is parted, and cells of a field, about.
const LEAST: usize = 24;

const CELLS: usize = 64;
/// Steps between labels at first, and from the row before where a row comes between two.
pub(crate) const GAP: u64 = 1 << 32;

pub(crate) const STEP: u64 = 1 << 16;

/// A slot: a row, its id and its label.
#[derive(Clone, Copy)]
pub(crate) struct Slot {
    pub row: SearchEntry,
    pub label: u64,
    pub id: usize,
}

/// What stands in an empty slot.
pub(crate) const NOTHING: Slot = Slot {
    row: SearchEntry {
        word: Word { value: 0, mask: 0 },
        decision: 0,
        is_fixed: true,
    },
    label: 0,
    id: usize::MAX,
};

/// The rows of a table in slots. Slot 0 stands before the first and behind the last row. Labels rise in the
/// order of the rows; those of rows that didn't move since they were laid out rise with the slots too.
#[derive(Drop)]
pub(crate) struct Slots {
    pub slots: Vec<Slot>,
    pub links: Links,
    /// The slots of rows.
    pub live: Sets,
    /// The slots of rows by decision.
    pub kinds: Sets,
    /// The slots of rows that moved.
    pub moved: Sets,
    pub cells: Vec<Cells>,
    pub empty: Vec<usize>,
    /// The slot of each row by its id, none where it was taken out.
    pub places: Vec<Option<usize>>,
    pub len: usize,
    /// How many rows moved since they were laid out.
    pub far: usize,
}

impl Slots {
    /// These rows in their order, with ids from 0 on.
    pub fn new(alloc: Global, rows: &[SearchEntry]) -> Result<Slots, Memory> {
        let mut all = Vec::with_capacity(alloc, rows.len())?;
        for (id, row) in rows.iter().enumerate() {
            all.push(Slot {
                row: *row,
                label: 0,
                id,
            })?;
        }
        Slots::laid(alloc, &all, rows.len())
    }

    /// Lays the rows out anew in their order.
    pub fn spread(&mut self, alloc: Global) -> Result<(), Memory> {
        let mut all = Vec::with_capacity(alloc, self.len)?;
        for place in self.links.in_order() {
            if let Some(slot) = self.slot(place) {
                all.push(*slot)?;
            }
        }
        *self = Slots::laid(alloc, &all, self.places.len())?;
        Ok(())
    }

    /// These slots' rows in their order, with ids below the number.
    fn laid(alloc: Global, all: &[Slot], ids: usize) -> Result<Slots, Memory> {
        let room = all.len().saturating_add(all.len() / 4).saturating_add(16);
        let mut slots = Slots {
            slots: vec![in alloc; NOTHING; room]?,
            links: Links::new(alloc, room)?,
            live: Sets::new(alloc, 1, room)?,
            kinds: Sets::new(alloc, KINDS as usize, room)?,
            moved: Sets::new(alloc, 1, room)?,
            cells: empty_cells(alloc, all, room)?,
            empty: Vec::with_capacity(alloc, room)?,
            places: vec![in alloc; None; ids]?,
            len: 0,
            far: 0,
        };
        for place in (1..room).rev() {
            slots.empty.push(place)?;
        }
        for (k, slot) in all.iter().enumerate() {
            let label = (k as u64).wrapping_add(1).wrapping_mul(GAP);
            slots.append(Slot { label, ..*slot });
        }
        Ok(slots)
    }

    /// Puts the row into a slot behind all, with its label; there must be an empty one.
    fn append(&mut self, slot: Slot) {
        let Some(place) = self.empty.pop() else {
            return;
        };
        self.fill(place, slot);
        self.links.put(place, 0);
    }

    /// Fills an empty slot.
    pub fn fill(&mut self, place: usize, slot: Slot) {
        if let Some(here) = self.slots.get_mut(place) {
            *here = slot;
        }
        if let Some(of_id) = self.places.get_mut(slot.id) {
            *of_id = Some(place);
        }
        self.flip(place, slot.row);
        self.len = self.len.wrapping_add(1);
    }

    /// Puts a row's slot into the sets, or takes it out.
    pub fn flip(&mut self, place: usize, row: SearchEntry) {
        self.live.flip(0, place);
        self.kinds.flip(kind(row.decision), place);
        for (cells, lead) in self.cells.iter_mut().zip(&leads(row.word)) {
            let cell = cells.cell(*lead);
            cells.flip(cell, place);
        }
    }

    /// How many rows there are.
    pub fn len(&self) -> usize {
        self.len
    }

    /// The slot of a row; none where it was taken out, or no row ever had the id.
    #[inline]
    pub fn place(&self, id: usize) -> Option<usize> {
        self.places.get(id).copied().flatten()
    }

    /// What stands in a slot; none behind the last one.
    #[inline]
    pub fn slot(&self, place: usize) -> Option<&Slot> {
        self.slots.get(place)
    }

    /// The label of what stands in a slot.
    #[inline]
    pub fn label_of(&self, place: usize) -> u64 {
        self.slot(place).map_or(0, |slot| slot.label)
    }

    /// The row with this id; one that is fixed and matches all where there is none.
    #[inline]
    pub fn row(&self, id: usize) -> SearchEntry {
        match self.place(id).and_then(|place| self.slot(place)) {
            Some(slot) => slot.row,
            None => NOTHING.row,
        }
    }
}

/// The set of slots for a decision.
#[inline]
pub(crate) fn kind(decision: u32) -> usize {
    (decision % KINDS) as usize
}

/// The cells of the five fields for these rows, all empty, with room for so many slots.
fn empty_cells(alloc: Global, all: &[Slot], room: usize) -> Result<Vec<Cells>, Memory> {
    let most = LEAST.max(all.len() / CELLS);
    let mut cells = Vec::with_capacity(alloc, 5)?;
    let mut found = Vec::new(alloc);
    for f in 0..5usize {
        found.clear();
        if all.len() > most {
            for slot in all {
                found.push(leads(slot.row.word)[f])?;
            }
            found.sort_unstable();
        }
        cells.push(Cells::new(alloc, &found, most, room)?)?;
    }
    Ok(cells)
}
