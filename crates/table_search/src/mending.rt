//! A table with new rows, made shorter by local steps that leave the other rows where they are.

use crate::effort::{REPAIR_REACH, REPAIR_ROUNDS};
use crate::placing::{Placed, entries_placed, spread};
use crate::room::Room;
use crate::rows::push_rows;
use crate::search::Search;
use entry_index::{SearchEntry, SearchTable};
use razor_limits::Memory;
use std::alloc::Global;
use ternary_words::{Entry, Word};
use word_cover::meets;

/// A table of old and of new rows.
#[derive(Drop)]
pub(crate) struct Mending {
    alloc: Global,
    search: Search,
    table: SearchTable,
    /// The rows of the old table; the first of them has this id, and the others follow.
    old: Vec<SearchEntry>,
    first: usize,
}

impl Mending {
    /// Begins with new rows in front of the old entries.
    pub fn new(alloc: Global, front: Vec<SearchEntry>, old: &[Entry]) -> Result<Mending, Memory> {
        let mut search = Search::new(alloc);
        search.most = REPAIR_REACH;
        let mut old_rows = Vec::with_capacity(alloc, old.len())?;
        push_rows(&mut old_rows, old, false)?;
        let first = front.len();
        let mut rows = front;
        rows.extend_from_slice(&old_rows)?;
        Ok(Mending {
            alloc,
            search,
            table: SearchTable::new(alloc, &rows)?,
            old: old_rows,
            first,
        })
    }

    /// Makes the table shorter, where only rows that meet the cubes can be wrong or redundant.
    ///
    /// New rows go down first: in front of all others they hide old ones, of which new ones that say the same would stay.
    pub fn settle(&mut self, cubes: &[Word]) -> Result<(), Memory> {
        self.trim_new()?;
        self.sink(usize::MAX)?;
        self.trim_new()?;
        self.trim_old(cubes)?;
        self.trim_new()?;
        for _ in 0..REPAIR_ROUNDS {
            let before = self.table.len();
            self.widen()?;
            if self.table.len() == before {
                break;
            }
        }
        self.sink(REPAIR_REACH)
    }

    /// The entries as they are now, the new ones where there is room between the old ones.
    pub fn entries(&self, room: &Room) -> Result<Vec<Entry>, Memory> {
        let mut placed = Vec::with_capacity(self.alloc, self.table.len())?;
        for id in &self.table.ids(self.alloc)? {
            placed.push(Placed {
                row: self.table.row(*id),
                home: self.home(*id),
                at_home: !self.is_new(*id),
            })?;
        }
        spread(self.alloc, &mut placed, room)?;
        entries_placed(self.alloc, &placed)
    }

    /// Whether the row with the id is new.
    fn is_new(&self, id: usize) -> bool {
        self.old_place(id).is_none()
    }

    /// The place of the row in the old table; none where it is new.
    fn old_place(&self, id: usize) -> Option<usize> {
        let place = id.checked_sub(self.first)?;
        if place >= self.old.len() {
            return None;
        }
        Some(place)
    }

    /// The place of the row in the old table; of a new one that of the old row with its word.
    fn home(&self, id: usize) -> Option<usize> {
        match self.old_place(id) {
            Some(place) => Some(place),
            None => self.place_of(self.table.row(id).word),
        }
    }

    /// The place of the old row with this cube.
    fn place_of(&self, cube: Word) -> Option<usize> {
        self.old.iter().position(|row| row.word == cube)
    }

    /// The ids of the new rows, from the last to the first.
    fn new_ids(&self) -> Result<Vec<usize>, Memory> {
        let mut ids = self.table.ids(self.alloc)?;
        ids.reverse();
        ids.retain(|id| self.is_new(*id));
        Ok(ids)
    }

    /// Takes out new rows that are redundant.
    fn trim_new(&mut self) -> Result<(), Memory> {
        for id in &self.new_ids()? {
            self.trim(*id)?;
        }
        Ok(())
    }

    /// Takes out old rows that meet the cubes and are redundant.
    fn trim_old(&mut self, cubes: &[Word]) -> Result<(), Memory> {
        for id in self.table.ids(self.alloc)?.iter().rev() {
            let cube = self.table.row(*id).word;
            if !self.is_new(*id) && cubes.iter().any(|other| meets(other, &cube)) {
                self.trim(*id)?;
            }
        }
        Ok(())
    }

    /// Takes the row out, if it is redundant.
    fn trim(&mut self, id: usize) -> Result<(), Memory> {
        if self.table.redundant(id)? {
            self.table.take(id)?;
        }
        Ok(())
    }

    /// Widens the new rows, then takes out what got redundant.
    fn widen(&mut self) -> Result<(), Memory> {
        let since = self.table.log_len();
        for id in &self.new_ids()? {
            self.search.widen_often(&mut self.table, *id)?;
        }
        self.trim_changed(since)
    }

    /// Takes out redundant rows that meet what the log told since it had this length.
    fn trim_changed(&mut self, since: usize) -> Result<(), Memory> {
        let told = Vec::from_slice(self.alloc, self.table.log_since(since))?;
        for id in self.table.ids(self.alloc)?.iter().rev() {
            let cube = self.table.row(*id).word;
            if told.iter().any(|one| meets(&one.0, &cube)) {
                self.trim(*id)?;
            }
        }
        Ok(())
    }

    /// Moves the new rows down as far as they can go, where about `most` rows meet them at most.
    fn sink(&mut self, most: usize) -> Result<(), Memory> {
        for id in &self.new_ids()? {
            self.table.sink(*id, most)?;
        }
        Ok(())
    }
}
