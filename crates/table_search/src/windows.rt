//! Windows: the entries that meet what one entry's addresses and protocol hold, for all ports, arranged anew.
//!
//! The entries that reach out of a window are fixed in it. What the window answers inside a smaller cube is lifted
//! in front of it, for several cubes; where that makes it shorter, the window's own entries are replaced.

use crate::effort::{FEWEST, LIFTS, WINDOW};
use crate::gaining::put_all;
use crate::hashes::hash_of;
use crate::lifting::top_of;
use crate::search::Search;
use entry_index::{SearchEntry, SearchTable, field};
use razor_limits::Memory;
use std::alloc::Global;
use std::mem;
use ternary_words::Word;
use word_cover::{fixed, freed, inside};

/// The rows of a window, their ids, and how many of them are its own.
#[derive(Drop)]
struct Window {
    around: Word,
    rows: Vec<SearchEntry>,
    ids: Vec<usize>,
    own: usize,
}

/// A cube to lift, and about how many rows that adds.
#[derive(Clone, Copy)]
struct Lift {
    added: usize,
    cube: Word,
}

impl Search {
    /// Tries all windows, the smallest first.
    pub fn windows(&mut self, table: &mut SearchTable) -> Result<(), Memory> {
        let ports = field(2) | field(3);
        let mut cubes = Vec::new(self.alloc);
        for row in &table.rows(self.alloc)? {
            cubes.push(freed(&row.word, ports))?;
        }
        cubes.sort_unstable_by_key(|cube: &Word| (cube.mask.count_zeros(), cube.mask, cube.value));
        cubes.dedup();
        for around in &cubes {
            self.window(table, *around)?;
        }
        Ok(())
    }

    /// Tries a window, unless it was tried in vain before.
    fn window(&mut self, table: &mut SearchTable, around: Word) -> Result<(), Memory> {
        let Some(window) = self.look(table, around)? else {
            return Ok(());
        };
        let hash = hash_of(&window.rows);
        if self.failed.contains(&hash) {
            return Ok(());
        }
        match self.arranged(&window)? {
            Some(rows) => put_back(table, &window, &rows),
            None => {
                self.failed.insert(hash)?;
                Ok(())
            }
        }
    }

    /// The window; none where it has too many rows or too few of its own.
    fn look(&mut self, table: &SearchTable, around: Word) -> Result<Option<Window>, Memory> {
        table.view(around, None, &mut self.view)?;
        if self.view.rows.len() > WINDOW {
            return Ok(None);
        }
        let mut window = Window {
            around,
            rows: Vec::with_capacity(self.alloc, self.view.rows.len())?,
            ids: Vec::from_slice(self.alloc, &self.view.ids)?,
            own: 0,
        };
        for row in &self.view.rows {
            let is_fixed = !inside(&row.word, &around);
            window.rows.push(SearchEntry { is_fixed, ..*row })?;
            window.own = window.own.saturating_add(usize::from(!is_fixed));
        }
        Ok(Some(window).filter(|window| window.own >= FEWEST))
    }

    /// The window's rows after the lifts that made them fewer; none where no lift did.
    fn arranged(&mut self, window: &Window) -> Result<Option<Vec<SearchEntry>>, Memory> {
        let lifts = lifts(self.alloc, window)?;
        let flat = mem::replace(&mut self.flat, false);
        let mut found: Option<Vec<SearchEntry>> = None;
        for lift in &lifts {
            let rows = found.as_ref().unwrap_or(&window.rows);
            let table = self.lifted(rows, lift.cube)?;
            if table.len() < rows.len() {
                found = Some(table.rows(self.alloc)?);
            }
        }
        self.flat = flat;
        Ok(found)
    }
}

/// The cubes to lift in a window, those first that add the fewest rows.
fn lifts(alloc: Global, window: &Window) -> Result<Vec<Lift>, Memory> {
    let mut lifts = Vec::new(alloc);
    for cube in &siblings(alloc, window)? {
        let top = top_of(alloc, &window.rows, *cube)?;
        if top.len() < window.own {
            let own = own_inside(&window.rows, *cube);
            lifts.push(Lift {
                added: top.len().saturating_sub(own),
                cube: *cube,
            })?;
        }
    }
    lifts.sort_by_key(|lift: &Lift| lift.added)?;
    lifts.truncate(LIFTS);
    Ok(lifts)
}

/// How many rows that aren't fixed lie inside of the cube.
fn own_inside(rows: &[SearchEntry], cube: Word) -> usize {
    rows.iter()
        .filter(|row| !row.is_fixed && inside(&row.word, &cube))
        .count()
}

/// The window's parts in which one port lies in the sibling of a prefix of an own row, the widest first.
fn siblings(alloc: Global, window: &Window) -> Result<Vec<Word>, Memory> {
    let mut cubes = Vec::new(alloc);
    for row in &window.rows {
        if !row.is_fixed {
            push_siblings(&mut cubes, window.around, row.word)?;
        }
    }
    cubes.sort_unstable_by_key(|cube: &Word| (cube.mask.count_ones(), cube.mask, cube.value));
    cubes.dedup();
    Ok(cubes)
}

/// Puts the siblings of the cube's prefixes in both ports, cut to the window, behind the others.
fn push_siblings(cubes: &mut Vec<Word>, around: Word, own: Word) -> Result<(), Memory> {
    for port in [field(2), field(3)] {
        let mask = own.mask & port & !around.mask;
        if mask != 0 {
            let lowest = mask & mask.wrapping_neg();
            cubes.push(fixed(&around, mask, own.value ^ lowest))?;
        }
    }
    Ok(())
}

/// Puts new rows in the place of the window's own ones: each right before the fixed one that follows it.
fn put_back(table: &mut SearchTable, window: &Window, rows: &[SearchEntry]) -> Result<(), Memory> {
    let mut rest = rows;
    for (id, old) in window.ids.iter().zip(&window.rows) {
        if old.is_fixed {
            rest = put_run(table, Some(*id), rest)?;
        } else {
            table.take(*id)?;
        }
    }
    put_run(table, None, rest)?;
    Ok(())
}

/// Puts the rows up to the next fixed one before the row with this id, or behind the last; what follows that one.
fn put_run<'a>(
    table: &mut SearchTable,
    before: Option<usize>,
    rows: &'a [SearchEntry],
) -> Result<&'a [SearchEntry], Memory> {
    let own = rows
        .iter()
        .position(|row| row.is_fixed)
        .unwrap_or(rows.len());
    put_all(table, before, rows.get(..own).unwrap_or(rows))?;
    Ok(rows.get(own.saturating_add(1)..).unwrap_or(&[]))
}
