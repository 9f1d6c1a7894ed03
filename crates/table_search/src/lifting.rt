//! Lifting: what a table answers inside a cube is put in front of it, so that its rows are free there.

use crate::search::Search;
use entry_index::{SearchEntry, SearchTable, covered_by};
use razor_limits::Memory;
use std::alloc::Global;
use ternary_words::Word;
use word_cover::{meet, meets};

impl Search {
    /// The table with what it answers inside of the cube in front of it, shortened from there.
    pub fn lifted(&mut self, rows: &[SearchEntry], cube: Word) -> Result<SearchTable, Memory> {
        let mut all = top_of(self.alloc, rows, cube)?;
        if !covered_by(cube, &all, &mut self.scratch)? {
            all.push(SearchEntry {
                word: cube,
                decision: 0,
                is_fixed: false,
            })?;
        }
        let top = all.len();
        all.extend_from_slice(rows)?;
        let mut table = SearchTable::new(self.alloc, &all)?;
        take_redundant(&mut table, top, all.len())?;
        self.pass_below(&mut table, top, all.len())?;
        narrow_all(&mut table, self.alloc)?;
        let ids = table.ids(self.alloc)?;
        self.pass(&mut table, &ids)?;
        Ok(table)
    }

    /// Widens the rows with these ids.
    fn pass_below(
        &mut self,
        table: &mut SearchTable,
        from: usize,
        upto: usize,
    ) -> Result<(), Memory> {
        let ids: Vec<usize> = (from..upto).collect(self.alloc)?;
        self.pass(table, &ids)
    }
}

/// What the table answers inside of the cube.
pub(crate) fn top_of(
    alloc: Global,
    rows: &[SearchEntry],
    cube: Word,
) -> Result<Vec<SearchEntry>, Memory> {
    let mut top = Vec::new(alloc);
    for row in rows {
        if meets(&row.word, &cube) {
            top.push(SearchEntry {
                word: meet(&row.word, &cube),
                decision: row.decision,
                is_fixed: false,
            })?;
        }
    }
    let mut table = SearchTable::new(alloc, &top)?;
    table.tight(true)?;
    table.rows(alloc)
}

/// Takes out the rows with these ids that are redundant, from the last to the first.
fn take_redundant(table: &mut SearchTable, from: usize, upto: usize) -> Result<(), Memory> {
    for id in (from..upto).rev() {
        if !table.is_fixed(id) && table.redundant(id)? {
            table.take(id)?;
        }
    }
    Ok(())
}

/// Narrows all rows.
fn narrow_all(table: &mut SearchTable, alloc: Global) -> Result<(), Memory> {
    for id in &table.ids(alloc)? {
        table.reduce(*id, usize::MAX)?;
    }
    table.tell_all()
}
