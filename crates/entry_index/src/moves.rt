//! Moves of single rows that keep what a table answers.

use crate::fields::{field, lowest, place_of, up_to_highest};
use crate::free::{free_for, passes};
use crate::table::SearchTable;
use razor_limits::Memory;
use ternary_words::{FIELD_PLACES, Word};
use word_cover::{fixed, freed, meets};

impl SearchTable {
    /// Whether the table answers the same without the row; false too where that is too hard to see.
    pub fn redundant(&mut self, id: usize) -> Result<bool, Memory> {
        let row = self.slots.row(id);
        let view = &mut self.view;
        self.slots.small(row.word, Some(id), usize::MAX, view)?;
        free_for(
            &view.rows,
            view.at,
            row.word,
            row.decision,
            None,
            None,
            &mut self.scratch,
        )
    }

    /// Takes out redundant rows from the last to the first. Where `all` is false only those are asked for
    /// whose neighbourhood changed since they were last asked for.
    #[inline(never)]
    pub fn tight(&mut self, all: bool) -> Result<(), Memory> {
        let ids = self.ids(self.alloc)?;
        for id in ids.iter().rev() {
            if !self.is_fixed(*id) {
                self.take_redundant(*id, all)?;
            }
        }
        Ok(())
    }

    /// Takes a row out if it is redundant, and remembers when it isn't.
    fn take_redundant(&mut self, id: usize, all: bool) -> Result<(), Memory> {
        if (all || self.is_touched(id)) && self.redundant(id)? {
            return self.take(id);
        }
        let now = self.log.len();
        if let Some(mark) = self.marks.get_mut(id) {
            mark.kept = Some(now);
        }
        Ok(())
    }

    /// Whether the log told of something that meets the row since the row was last seen to be needed.
    fn is_touched(&self, id: usize) -> bool {
        let Some(since) = self.mark(id).and_then(|mark| mark.kept) else {
            return true;
        };
        let cube = self.row(id).word;
        self.log_since(since)
            .iter()
            .any(|told| meets(&told.0, &cube))
    }

    /// Moves a row as far down as it can go: there the fewest rows forbid it to widen. False, and nothing done,
    /// where about more than `most` rows meet it.
    #[inline(never)]
    pub fn sink(&mut self, id: usize, most: usize) -> Result<bool, Memory> {
        let row = self.slots.row(id);
        let view = &mut self.view;
        if !self.slots.small(row.word, Some(id), most, view)? {
            return Ok(false);
        }
        let place = passes(
            &view.rows,
            row.word,
            row.decision,
            view.at,
            view.rows.len(),
            None,
            &mut self.scratch,
        )?;
        let next = view.ids.get(place).copied();
        self.slots.carry(self.alloc, id, next)?;
        Ok(true)
    }

    /// Narrows a row to a small cube that holds all that is needed of it, prefix by prefix.
    #[inline(never)]
    pub fn reduce(&mut self, id: usize, most: usize) -> Result<(), Memory> {
        let row = self.slots.row(id);
        if row.is_fixed || !self.slots.small(row.word, Some(id), most, &mut self.view)? {
            return Ok(());
        }
        let mut cube = row.word;
        for f in (0..FIELD_PLACES.len()).rev() {
            cube = self.narrowed(cube, row.decision, f)?;
        }
        self.slots.set(id, cube);
        Ok(())
    }

    /// The cube with the free bits of a field fixed, from the highest on, as long as one half isn't needed.
    fn narrowed(&mut self, mut cube: Word, decision: u32, f: usize) -> Result<Word, Memory> {
        let (low, width) = place_of(f);
        let mut bit = 1 << (low.wrapping_add(width) % 128);
        for _ in 0..width {
            bit >>= 1;
            if cube.mask & bit != 0 {
                continue;
            }
            let (zero, one) = (fixed(&cube, bit, 0), fixed(&cube, bit, bit));
            if self.is_free(one, decision)? {
                cube = zero;
            } else if self.is_free(zero, decision)? {
                cube = one;
            } else {
                break;
            }
        }
        Ok(cube)
    }

    /// Whether the cube may stand with this decision where the table's view was looked at for.
    #[inline]
    fn is_free(&mut self, cube: Word, decision: u32) -> Result<bool, Memory> {
        let view = &self.view;
        free_for(
            &view.rows,
            view.at,
            cube,
            decision,
            None,
            None,
            &mut self.scratch,
        )
    }

    /// Widens a row prefix by prefix while nothing changes, in this order of the fields, as far down as it can
    /// go.
    #[inline(never)]
    pub fn prime(&mut self, id: usize, order: &[usize; 5], most: usize) -> Result<(), Memory> {
        if self.is_fixed(id) || !self.sink(id, most)? {
            return Ok(());
        }
        let row = self.slots.row(id);
        let mut cube = row.word;
        for f in order {
            cube = self.widened(id, cube, row.decision, *f, most)?;
        }
        self.slots.set(id, cube);
        Ok(())
    }

    /// The cube with the fixed bits of a field freed, from the lowest on, as long as nothing changes. A few
    /// bits at a time, so that what stops the row is seen from few others.
    fn widened(
        &mut self,
        id: usize,
        mut cube: Word,
        decision: u32,
        f: usize,
        most: usize,
    ) -> Result<Word, Memory> {
        let (low, width) = place_of(f);
        let mut first = 1 << (low % 128);
        for _ in 0..width / 4 {
            let four = first | first << 1 | first << 2 | first << 3;
            let cut = field(f) & up_to_highest(four);
            first <<= 4;
            if cube.mask & cut == 0 {
                continue;
            }
            if !self
                .slots
                .small(freed(&cube, cut), Some(id), most, &mut self.view)?
            {
                break;
            }
            cube = self.loosened(cube, decision, four)?;
            if cube.mask & cut != 0 {
                break;
            }
        }
        Ok(cube)
    }

    /// The cube with these four bits freed, from the lowest on, as long as nothing changes.
    fn loosened(&mut self, mut cube: Word, decision: u32, four: u128) -> Result<Word, Memory> {
        let mut left = cube.mask & four;
        for _ in 0..4u32 {
            if left == 0 {
                break;
            }
            let bit = lowest(left);
            left ^= bit;
            // The half that comes in.
            let wider = freed(&cube, bit);
            if !self.is_free(fixed(&wider, bit, !cube.value), decision)? {
                break;
            }
            cube = wider;
        }
        Ok(cube)
    }
}
