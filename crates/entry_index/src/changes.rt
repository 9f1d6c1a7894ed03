//! Rows put in, taken out, changed and moved.

use crate::fields::leads;
use crate::search_entry::SearchEntry;
use crate::slots::{GAP, NOTHING, STEP, Slot, Slots};
use razor_limits::Memory;
use std::alloc::Global;
use ternary_words::Word;

impl Slots {
    /// Puts a row right before the one with this id, or behind the last.
    pub fn put(
        &mut self,
        alloc: Global,
        before: Option<usize>,
        row: SearchEntry,
    ) -> Result<(), Memory> {
        if self.empty.is_empty() {
            self.spread(alloc)?;
        }
        let Some(place) = self.empty.pop() else {
            return Ok(());
        };
        let id = self.places.len();
        self.places.push(None)?;
        self.fill(place, Slot { row, label: 0, id });
        self.moved.flip(0, place);
        self.link(place, self.place_or_end(before));
        Ok(())
    }

    /// Takes a row out; nothing where there is none.
    pub fn take(&mut self, id: usize) -> Result<(), Memory> {
        let Some(place) = self.place(id) else {
            return Ok(());
        };
        self.empty.push(place)?;
        let row = self.row(id);
        self.flip(place, row);
        self.links.take(place);
        if self.moved.has(0, place) {
            self.moved.flip(0, place);
        }
        if let Some(here) = self.slots.get_mut(place) {
            *here = NOTHING;
        }
        if let Some(of_id) = self.places.get_mut(id) {
            *of_id = None;
        }
        self.len = self.len.wrapping_sub(1);
        Ok(())
    }

    /// Gives a row another cube.
    pub fn set(&mut self, id: usize, cube: Word) {
        let Some(place) = self.place(id) else {
            return;
        };
        let Some(slot) = self.slots.get_mut(place) else {
            return;
        };
        let (old, new) = (leads(slot.row.word), leads(cube));
        slot.row.word = cube;
        for (cells, (old, new)) in self.cells.iter_mut().zip(old.iter().zip(&new)) {
            if old != new {
                cells.carry(place, *old, *new);
            }
        }
    }

    /// Moves a row right before another, or behind the last.
    pub fn carry(&mut self, alloc: Global, id: usize, before: Option<usize>) -> Result<(), Memory> {
        let Some(place) = self.place(id) else {
            return Ok(());
        };
        let behind = self.place_or_end(before);
        if behind == place || self.links.of(place).behind == behind {
            return Ok(());
        }
        self.links.take(place);
        self.link(place, behind);
        if !self.moved.has(0, place) {
            self.moved.flip(0, place);
            self.far = self.far.wrapping_add(1);
        }
        if self.far > (self.len / 8).saturating_add(32) {
            self.spread(alloc)?;
        }
        Ok(())
    }

    /// The slot of the row with this id, or the end.
    fn place_or_end(&self, id: Option<usize>) -> usize {
        id.and_then(|id| self.place(id)).unwrap_or(0)
    }

    /// Puts a slot into the order right before another, with a label between.
    fn link(&mut self, place: usize, behind: usize) {
        let before = self.links.of(behind).before;
        self.links.put(place, behind);
        let low = self.label_of(before);
        let high = if behind == 0 {
            low.saturating_add(2 * GAP)
        } else {
            self.label_of(behind)
        };
        let between = high.saturating_sub(low);
        if between < 2 {
            self.label_all();
        } else {
            self.label(place, low.wrapping_add(STEP.min(between / 2)));
        }
    }

    /// Gives a slot a label.
    fn label(&mut self, place: usize, label: u64) {
        if let Some(slot) = self.slots.get_mut(place) {
            slot.label = label;
        }
    }

    /// Labels all slots anew.
    fn label_all(&mut self) {
        let mut label = 0u64;
        for place in self.links.in_order() {
            label = label.wrapping_add(GAP);
            if let Some(slot) = self.slots.get_mut(place) {
                slot.label = label;
            }
        }
    }
}
