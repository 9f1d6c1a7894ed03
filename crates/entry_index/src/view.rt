//! The rows that meet a cube.

use crate::fields::{FIELD_BITS, leads};
use crate::search_entry::SearchEntry;
use crate::sets::{Block, count, keep};
use crate::slots::{Slot, Slots, kind};
use razor_limits::Memory;
use std::alloc::Global;
use ternary_words::Word;
use word_cover::{freed, inside, meets};

/// The rows of a table that meet a cube, in order, without the one that they are looked at for.
#[derive(Drop)]
pub struct View {
    /// The rows' ids.
    pub ids: Vec<usize>,
    pub rows: Vec<SearchEntry>,
    /// How many of them stand before the one that they are looked at for.
    pub at: usize,
    /// The slots that are looked at.
    blocks: Vec<u64>,
    /// Labels and slots of those that moved, in order.
    moved: Vec<(u64, usize)>,
}

impl View {
    /// Of no rows.
    pub fn new(alloc: Global) -> View {
        View {
            ids: Vec::new(alloc),
            rows: Vec::new(alloc),
            at: 0,
            blocks: Vec::new(alloc),
            moved: Vec::new(alloc),
        }
    }

    /// Forgets all.
    fn clear(&mut self) {
        self.ids.clear();
        self.rows.clear();
        self.at = 0;
        self.blocks.clear();
        self.moved.clear();
    }

    /// Pushes what stands in a slot; `here` is the label of the row that the others are looked at for.
    #[inline]
    fn push(&mut self, slot: &Slot, here: u64) -> Result<(), Memory> {
        self.at = self.at.wrapping_add(usize::from(slot.label < here));
        self.ids.push(slot.id)?;
        self.rows.push(slot.row)?;
        Ok(())
    }
}

impl Slots {
    /// Fills the view with the rows that meet the cube, seen from the row with this id. False, and the view
    /// isn't to be read, where these are more than `most`, about.
    #[inline(never)]
    pub fn small(
        &self,
        cube: Word,
        id: Option<usize>,
        most: usize,
        view: &mut View,
    ) -> Result<bool, Memory> {
        view.clear();
        view.blocks.extend_from_slice(self.live.set(0))?;
        for (cells, lead) in self.cells.iter().zip(&leads(cube)) {
            let cell = cells.cell(*lead);
            if cell != 0 {
                keep(&mut view.blocks, cells.near(cell));
            }
        }
        if most != usize::MAX && count(&view.blocks) > most {
            return Ok(false);
        }
        let own = id.and_then(|id| self.place(id)).unwrap_or(0);
        let here = if own == 0 {
            u64::MAX
        } else {
            self.label_of(own)
        };
        self.part_moved(cube, own, view)?;
        self.push_all(cube, own, here, view)?;
        Ok(true)
    }

    /// Parts the slots that moved and meet the cube from the others.
    fn part_moved(&self, cube: Word, own: usize, view: &mut View) -> Result<(), Memory> {
        for (b, (block, moved)) in view.blocks.iter_mut().zip(self.moved.set(0)).enumerate() {
            for place in Block::at(b, *block & *moved) {
                if let Some(slot) = self.slot(place)
                    && meets(&slot.row.word, &cube)
                    && place != own
                {
                    view.moved.push((slot.label, place))?;
                }
            }
            *block &= !*moved;
        }
        view.moved.sort_unstable();
        Ok(())
    }

    /// Pushes the rows that meet the cube in order: those that didn't move, with those that did between.
    fn push_all(&self, cube: Word, own: usize, here: u64, view: &mut View) -> Result<(), Memory> {
        let mut far = 0;
        for b in 0..view.blocks.len() {
            for place in Block::at(b, view.blocks.get(b).copied().unwrap_or(0)) {
                if let Some(slot) = self.slot(place)
                    && meets(&slot.row.word, &cube)
                    && place != own
                {
                    far = self.push_moved(far, slot.label, here, view)?;
                    view.push(slot, here)?;
                }
            }
        }
        self.push_moved(far, u64::MAX, here, view)?;
        Ok(())
    }

    /// Pushes those that moved, from this one on, with labels below `below`; the answer is the next one.
    #[inline]
    fn push_moved(
        &self,
        far: usize,
        below: u64,
        here: u64,
        view: &mut View,
    ) -> Result<usize, Memory> {
        for k in far..view.moved.len() {
            let Some(&(label, place)) = view.moved.get(k) else {
                return Ok(k);
            };
            if label >= below {
                return Ok(k);
            }
            if let Some(slot) = self.slot(place) {
                view.push(slot, here)?;
            }
        }
        Ok(view.moved.len())
    }

    /// Fills `found` with the rows of this decision, and their ids, that lie inside the cube in all bits but the
    /// free ones.
    pub fn inside(
        &self,
        cube: Word,
        decision: u32,
        free: u128,
        view: &mut View,
        found: &mut Vec<(usize, SearchEntry)>,
    ) -> Result<(), Memory> {
        found.clear();
        view.blocks.clear();
        view.blocks
            .extend_from_slice(self.kinds.set(kind(decision)))?;
        for ((cells, lead), field) in self.cells.iter().zip(&leads(cube)).zip(&FIELD_BITS) {
            let cell = cells.cell(*lead);
            if *field & free == 0 && cell != 0 {
                keep(&mut view.blocks, cells.below(cell));
            }
        }
        let outer = freed(&cube, free);
        for (b, block) in view.blocks.iter().enumerate() {
            for place in Block::at(b, *block) {
                if let Some(slot) = self.slot(place)
                    && slot.row.decision == decision
                    && inside(&slot.row.word, &outer)
                {
                    found.push((slot.id, slot.row))?;
                }
            }
        }
        Ok(())
    }
}
