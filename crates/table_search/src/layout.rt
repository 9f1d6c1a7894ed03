//! A table laid out rule by rule, in which rules with wide port ranges have few rows.
//!
//! The entries of such a rule are hundreds: one for each two prefixes of its ports. In their place stand rows with the one
//! prefix that holds a port's values, and what these hold too much, as the ports 0 and 65535, are strips. In front of all
//! rows stand, strip by strip, rows that give the answers there; so rules with the same strips share them.

use crate::rows::entries_of;
use crate::shapes::Shape;
use crate::strips::{Cost, Strip, put_cut};
use entry_index::SearchEntry;
use razor_limits::Memory;
use std::alloc::Global;
use ternary_words::{Entry, Word};
use word_cover::{inside, meet, meets};

/// Entries of a rule above which it gets wider rows.
pub const WIDE: usize = 300;

/// A table laid out from its last rule to its first.
#[derive(Drop)]
pub struct Layout {
    alloc: Global,
    strips: Vec<Strip>,
    /// The rows behind the strips, the last one first.
    rows: Vec<SearchEntry>,
    /// What strips are known to cost.
    costs: Vec<Cost>,
    scratch: Vec<Word>,
}

impl Layout {
    /// The table of these entries.
    pub fn new(alloc: Global, behind: &[Entry]) -> Result<Layout, Memory> {
        let mut rows = Vec::with_capacity(alloc, behind.len())?;
        for entry in behind.iter().rev() {
            rows.push(row_of(entry))?;
        }
        Ok(Layout {
            alloc,
            strips: Vec::new(alloc),
            rows,
            costs: Vec::new(alloc),
            scratch: Vec::new(alloc),
        })
    }

    /// The table of these entries again, for the same rules in the same order: wide rules get fewer rows, now that it is
    /// known how many rows their strips cost.
    pub fn again(&self, behind: &[Entry]) -> Result<Layout, Memory> {
        let mut again = Layout::new(self.alloc, behind)?;
        for strip in &self.strips {
            again.costs.push(strip.cost())?;
        }
        Ok(again)
    }

    /// Whether some rule got wider rows.
    pub fn has_strips(&self) -> bool {
        !self.strips.is_empty()
    }

    /// How many entries it has.
    pub fn len(&self) -> usize {
        self.strips.iter().fold(
            self.rows.len(),
            |sum, strip| sum.saturating_add(strip.len()),
        )
    }

    /// Whether it has no entries.
    pub fn is_empty(&self) -> bool {
        self.len() == 0
    }

    /// Puts a rule in front of all others, of which these are the entries.
    pub fn put(&mut self, entries: &[Entry]) -> Result<(), Memory> {
        let mut rows = Vec::with_capacity(self.alloc, entries.len())?;
        for entry in entries {
            rows.push(row_of(entry))?;
        }
        if rows.len() > WIDE {
            self.put_wide(&Shape::of(self.alloc, entries)?, &rows)
        } else {
            self.raise(&rows, &rows, &[])?;
            self.put_rows(&rows)
        }
    }

    /// The entries, in order.
    pub fn entries(&self) -> Result<Vec<Entry>, Memory> {
        let mut order = Vec::with_capacity(self.alloc, self.strips.len())?;
        for k in 0..self.strips.len() {
            order.push(self.rank(k))?;
        }
        order.sort_unstable();
        let mut rows = Vec::new(self.alloc);
        for (_, k) in &order {
            if let Some(strip) = self.strips.get(*k) {
                strip.put_rows(&mut rows)?;
            }
        }
        for row in self.rows.iter().rev() {
            rows.push(*row)?;
        }
        entries_of(self.alloc, &rows)
    }

    /// Puts a rule of this shape in front of all others, in the form that costs least; `exact` are its entries' rows.
    fn put_wide(&mut self, shape: &Shape, exact: &[SearchEntry]) -> Result<(), Memory> {
        let form = shape.form(&self.costs);
        let rows = shape.rows(form)?;
        let own = shape.strips(form)?;
        self.enter(&own)?;
        self.raise(&rows, exact, &own)?;
        for strip in &own {
            for hull in &shape.hulls()? {
                if meets(hull, strip) {
                    self.close(*strip, meet(hull, strip))?;
                }
            }
        }
        self.put_rows(&rows)
    }

    /// Enters a rule that holds these strips too much.
    fn enter(&mut self, own: &[Word]) -> Result<(), Memory> {
        for cube in own {
            if self.place(*cube).is_none() {
                let apart = self.cubes()?;
                self.strips.push(Strip::new(self.alloc, *cube, apart))?;
            }
        }
        for strip in self.strips.iter_mut() {
            if own.contains(&strip.cube) {
                strip.users = strip.users.saturating_add(1);
            } else {
                add_new(&mut strip.apart, own)?;
            }
        }
        Ok(())
    }

    /// The cubes of the strips that a rule was entered for.
    fn cubes(&self) -> Result<Vec<Word>, Memory> {
        let mut cubes = Vec::new(self.alloc);
        for strip in &self.strips {
            if strip.users > 0 {
                cubes.push(strip.cube)?;
            }
        }
        Ok(cubes)
    }

    /// Has the rows of a rule with these strips answer in all other strips too; the exact rows where the others would answer
    /// too early there.
    fn raise(
        &mut self,
        rows: &[SearchEntry],
        exact: &[SearchEntry],
        own: &[Word],
    ) -> Result<(), Memory> {
        for k in 0..self.strips.len() {
            let comes_last = own.iter().all(|other| self.stands_before(*other, k));
            let raised = if comes_last { rows } else { exact };
            if let Some(strip) = self.strips.get_mut(k)
                && !own.contains(&strip.cube)
            {
                for row in raised.iter().rev() {
                    strip.raise(row)?;
                }
            }
        }
        Ok(())
    }

    /// Whether the rows of a strip stand before those of the one at the place, or have nothing to do with them.
    fn stands_before(&self, cube: Word, k: usize) -> bool {
        let (Some(place), Some(strip)) = (self.place(cube), self.strips.get(k)) else {
            return true;
        };
        !meets(&strip.cube, &cube) || self.rank(place) < self.rank(k)
    }

    /// The rank of the strip at the place: those with fewer values stand first, else the older ones.
    fn rank(&self, k: usize) -> (u32, usize) {
        let values = self
            .strips
            .get(k)
            .map_or(0, |strip| strip.cube.mask.count_zeros());
        (values, k)
    }

    /// The place of the strip.
    fn place(&self, cube: Word) -> Option<usize> {
        self.strips.iter().position(|strip| strip.cube == cube)
    }

    /// Has the strip answer all of the cube, which lies in it, as the rows so far do.
    fn close(&mut self, strip: Word, cube: Word) -> Result<(), Memory> {
        let Some(place) = self.place(strip) else {
            return Ok(());
        };
        let rows = self.answering(place, cube)?;
        if let Some(strip) = self.strips.get_mut(place) {
            strip.close(self.alloc, cube, &rows, &mut self.scratch)?;
        }
        Ok(())
    }

    /// The rows that answer in the cube behind those of the strip at the place, cut to it.
    fn answering(&self, place: usize, cube: Word) -> Result<Vec<SearchEntry>, Memory> {
        let mut rows = Vec::new(self.alloc);
        if let Some(strip) = self.strips.get(place) {
            for other in &self.strips {
                if strip.apart.contains(&other.cube) && !self.stands_before(other.cube, place) {
                    other.put_cut(&mut rows, cube)?;
                }
            }
        }
        for row in self.rows.iter().rev() {
            put_cut(&mut rows, row, cube)?;
            if inside(&cube, &row.word) {
                break;
            }
        }
        Ok(rows)
    }

    fn put_rows(&mut self, rows: &[SearchEntry]) -> Result<(), Memory> {
        for row in rows.iter().rev() {
            self.rows.push(*row)?;
        }
        Ok(())
    }
}

/// Adds those of the others that aren't there.
fn add_new(cubes: &mut Vec<Word>, others: &[Word]) -> Result<(), Memory> {
    for other in others {
        if !cubes.contains(other) {
            cubes.push(*other)?;
        }
    }
    Ok(())
}

/// The row of an entry.
fn row_of(entry: &Entry) -> SearchEntry {
    SearchEntry {
        word: entry.word,
        decision: entry.decision,
        is_fixed: false,
    }
}
