//! Tables that are searched.

use crate::marks::Mark;
use crate::search_entry::SearchEntry;
use crate::slots::Slots;
use crate::view::View;
use razor_limits::Memory;
use std::alloc::Global;
use ternary_words::Word;

/// A table of rows in order, each known by an id that stays with it: the rows that it is made of have ids
/// from 0 on, in order, and each row that is put in later has the next one. The log tells cubes that were
/// changed, put in or taken out, with their decisions; it only decides what is looked at again.
#[derive(Drop)]
pub struct SearchTable {
    pub(crate) alloc: Global,
    pub(crate) slots: Slots,
    pub(crate) marks: Vec<Mark>,
    pub(crate) log: Vec<(Word, u32)>,
    pub(crate) view: View,
    pub(crate) scratch: Vec<Word>,
}

impl SearchTable {
    /// The table of these rows.
    pub fn new(alloc: Global, rows: &[SearchEntry]) -> Result<SearchTable, Memory> {
        let mut marks = Vec::with_capacity(alloc, rows.len())?;
        for row in rows {
            marks.push(Mark::new(alloc, row.word))?;
        }
        Ok(SearchTable {
            alloc,
            slots: Slots::new(alloc, rows)?,
            marks,
            log: Vec::new(alloc),
            view: View::new(alloc),
            scratch: Vec::new(alloc),
        })
    }

    /// How many rows it has.
    pub fn len(&self) -> usize {
        self.slots.len()
    }

    /// Whether it has no rows.
    pub fn is_empty(&self) -> bool {
        self.len() == 0
    }

    /// The ids of the rows, in order.
    pub fn ids(&self, alloc: Global) -> Result<Vec<usize>, Memory> {
        let mut ids = Vec::with_capacity(alloc, self.len())?;
        for place in self.slots.links.in_order() {
            if let Some(slot) = self.slots.slot(place) {
                ids.push(slot.id)?;
            }
        }
        Ok(ids)
    }

    /// The rows, in order.
    pub fn rows(&self, alloc: Global) -> Result<Vec<SearchEntry>, Memory> {
        let mut rows = Vec::with_capacity(alloc, self.len())?;
        for place in self.slots.links.in_order() {
            if let Some(slot) = self.slots.slot(place) {
                rows.push(slot.row)?;
            }
        }
        Ok(rows)
    }

    /// Whether the row is still in the table.
    pub fn stands(&self, id: usize) -> bool {
        self.slots.place(id).is_some()
    }

    /// The row; one that is fixed and matches all where there is none.
    pub fn row(&self, id: usize) -> SearchEntry {
        self.slots.row(id)
    }

    /// Whether the row is fixed.
    pub fn is_fixed(&self, id: usize) -> bool {
        self.row(id).is_fixed
    }

    /// What is known of a row; it stays when the row is taken out. None where no row ever had the id.
    pub fn mark(&self, id: usize) -> Option<&Mark> {
        self.marks.get(id)
    }

    /// The same, to be changed.
    pub fn mark_mut(&mut self, id: usize) -> Option<&mut Mark> {
        self.marks.get_mut(id)
    }

    /// The length of the log.
    pub fn log_len(&self) -> usize {
        self.log.len()
    }

    /// What the log told since it had this length.
    pub fn log_since(&self, len: usize) -> &[(Word, u32)] {
        self.log.as_slice().get(len..).unwrap_or(&[])
    }

    /// Fills the view with the rows that meet the cube, seen from the row with this id, which isn't among
    /// them; from behind the last row where it is none.
    pub fn view(&self, cube: Word, id: Option<usize>, view: &mut View) -> Result<(), Memory> {
        self.slots.small(cube, id, usize::MAX, view)?;
        Ok(())
    }

    /// The same, where these are at most `most`, about; else the answer is false, and the view isn't to be
    /// read.
    pub fn small(
        &self,
        cube: Word,
        id: Option<usize>,
        most: usize,
        view: &mut View,
    ) -> Result<bool, Memory> {
        self.slots.small(cube, id, most, view)
    }

    /// Fills `found` with the rows of this decision, and their ids, that lie inside the cube in all bits but the
    /// free ones; in no order. The view is used as scratch, and isn't to be read then.
    pub fn inside(
        &self,
        cube: Word,
        decision: u32,
        free: u128,
        view: &mut View,
        found: &mut Vec<(usize, SearchEntry)>,
    ) -> Result<(), Memory> {
        self.slots.inside(cube, decision, free, view, found)
    }

    /// Puts a row right before another, or behind the last row, and tells the log.
    pub fn put(&mut self, before: Option<usize>, row: SearchEntry) -> Result<(), Memory> {
        self.slots.put(self.alloc, before, row)?;
        self.marks.push(Mark::new(self.alloc, row.word))?;
        self.log.push((row.word, row.decision))?;
        Ok(())
    }

    /// Takes a row out, and tells the log.
    pub fn take(&mut self, id: usize) -> Result<(), Memory> {
        if !self.stands(id) {
            return Ok(());
        }
        let row = self.row(id);
        self.slots.take(id)?;
        if let Some(told) = self.mark(id).and_then(|mark| mark.told)
            && told != row.word
        {
            self.log.push((told, row.decision))?;
        }
        self.log.push((row.word, row.decision))?;
        Ok(())
    }

    /// Gives the row another cube. The log doesn't tell it before `tell`.
    pub fn set(&mut self, id: usize, cube: Word) {
        self.slots.set(id, cube);
    }

    /// Tells the log of the row's cube, where that isn't the one that it told last.
    pub fn tell(&mut self, id: usize) -> Result<(), Memory> {
        let row = self.row(id);
        let Some(mark) = self.marks.get_mut(id) else {
            return Ok(());
        };
        let told = mark.told.replace(row.word);
        if told == Some(row.word) {
            return Ok(());
        }
        if let Some(old) = told {
            self.log.push((old, row.decision))?;
        }
        self.log.push((row.word, row.decision))?;
        Ok(())
    }

    /// Tells the log of all rows' cubes.
    pub fn tell_all(&mut self) -> Result<(), Memory> {
        let ids = self.ids(self.alloc)?;
        for id in &ids {
            self.tell(*id)?;
        }
        Ok(())
    }

    /// Lays the rows out anew in their order, which makes views faster.
    pub fn spread(&mut self) -> Result<(), Memory> {
        self.slots.spread(self.alloc)
    }
}
