//! Strips: parts of one port's values for which wide rules stand back.
//!
//! A rule that is widened holds too much in its strips. There rows in front of it give the answers of the rules behind it.

use entry_index::{SearchEntry, SearchTable, covered};
use razor_limits::Memory;
use std::alloc::Global;
use ternary_words::Word;
use word_cover::{meet, meets};

/// Some values of one port, and the rows in front of all others that answer there what they match.
#[derive(Drop)]
pub(crate) struct Strip {
    pub cube: Word,
    /// How many rules hold it too much.
    pub users: usize,
    /// Strips that some rule holds too much and not this one.
    pub apart: Vec<Word>,
    /// The rows that came in front of the others, the last one first.
    front: Vec<SearchEntry>,
    others: Vec<SearchEntry>,
}

/// About how many rows a strip costs each of its rules.
#[derive(Clone, Copy)]
pub(crate) struct Cost {
    pub strip: Word,
    pub rows: usize,
}

impl Strip {
    /// No rows.
    pub fn new(alloc: Global, cube: Word, apart: Vec<Word>) -> Strip {
        Strip {
            cube,
            users: 0,
            apart,
            front: Vec::new(alloc),
            others: Vec::new(alloc),
        }
    }

    /// How many rows it has.
    pub fn len(&self) -> usize {
        self.front.len().saturating_add(self.others.len())
    }

    /// About how many rows it costs each of its rules.
    pub fn cost(&self) -> Cost {
        let rows = self.len();
        Cost {
            strip: self.cube,
            rows: rows.checked_div(self.users).unwrap_or(rows),
        }
    }

    /// Puts its rows behind the others.
    pub fn put_rows(&self, rows: &mut Vec<SearchEntry>) -> Result<(), Memory> {
        for row in self.front.iter().rev() {
            rows.push(*row)?;
        }
        rows.extend_from_slice(&self.others)?;
        Ok(())
    }

    /// Puts its rows that meet the cube, cut to it, behind the others.
    pub fn put_cut(&self, rows: &mut Vec<SearchEntry>, cube: Word) -> Result<(), Memory> {
        for row in self.front.iter().rev() {
            put_cut(rows, row, cube)?;
        }
        for row in &self.others {
            put_cut(rows, row, cube)?;
        }
        Ok(())
    }

    /// Has a row that stands in front of the rules so far answer in the strip too, where it matters.
    pub fn raise(&mut self, row: &SearchEntry) -> Result<(), Memory> {
        if !meets(&row.word, &self.cube) {
            return Ok(());
        }
        let cube = meet(&row.word, &self.cube);
        if differs(&self.front, cube, row.decision) || differs(&self.others, cube, row.decision) {
            self.front.push(SearchEntry { word: cube, ..*row })?;
        }
        Ok(())
    }

    /// Has the strip answer all of the cube, which lies in it; what isn't answered yet as these rows do.
    pub fn close(
        &mut self,
        alloc: Global,
        cube: Word,
        rows: &[SearchEntry],
        scratch: &mut Vec<Word>,
    ) -> Result<(), Memory> {
        let mut known = self.cubes(alloc, cube)?;
        if covered(cube, &known, scratch)? {
            return Ok(());
        }
        let mut all = Vec::new(alloc);
        self.put_cut(&mut all, cube)?;
        all.extend_from_slice(rows)?;
        let mut table = SearchTable::new(alloc, &all)?;
        table.tight(true)?;
        for row in &table.rows(alloc)? {
            if !covered(row.word, &known, scratch)? {
                self.others.push(*row)?;
                known.push(row.word)?;
            }
        }
        if !covered(cube, &known, scratch)? {
            self.others.push(SearchEntry {
                word: cube,
                decision: 0,
                is_fixed: false,
            })?;
        }
        Ok(())
    }

    /// The cubes of its rows that meet the cube.
    fn cubes(&self, alloc: Global, cube: Word) -> Result<Vec<Word>, Memory> {
        let mut rows = Vec::new(alloc);
        self.put_cut(&mut rows, cube)?;
        let mut cubes = Vec::with_capacity(alloc, rows.len())?;
        for row in &rows {
            cubes.push(row.word)?;
        }
        Ok(cubes)
    }
}

/// Whether a row of another decision meets the cube.
fn differs(rows: &[SearchEntry], cube: Word, decision: u32) -> bool {
    rows.iter()
        .any(|row| row.decision != decision && meets(&row.word, &cube))
}

/// Puts the row, cut to the cube, behind the others, where it meets it.
pub(crate) fn put_cut(
    rows: &mut Vec<SearchEntry>,
    row: &SearchEntry,
    cube: Word,
) -> Result<(), Memory> {
    if meets(&row.word, &cube) {
        rows.push(SearchEntry {
            word: meet(&row.word, &cube),
            ..*row
        })?;
    }
    Ok(())
}
