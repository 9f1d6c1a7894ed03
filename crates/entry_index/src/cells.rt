//! The prefixes into which a field is parted.

use crate::fields::Lead;
use crate::sets::Sets;
use razor_limits::Memory;
use std::alloc::Global;

/// The prefixes into which one field is parted, from the whole field down, each in front of those inside of
/// it; and for each the slots of rows that meet it (`near`) and of rows that lie inside of it (`below`).
#[derive(Drop)]
pub(crate) struct Cells {
    cells: Vec<Cell>,
    near: Sets,
    below: Sets,
}

/// A prefix of a field.
#[derive(Clone, Copy)]
struct Cell {
    /// Its halves; 0 where it isn't parted.
    zero: usize,
    one: usize,
    /// What it is a half of.
    up: usize,
    /// The first cell behind it that isn't inside.
    end: usize,
}

impl Cells {
    /// The field parted so that a cell that is parted no more strictly holds at most so many of these leads;
    /// with room for so many slots.
    pub fn new(alloc: Global, leads: &[Lead], most: usize, slots: usize) -> Result<Cells, Memory> {
        let mut cells = Vec::new(alloc);
        part(&mut cells, leads, 0, 0, most)?;
        let count = cells.len();
        Ok(Cells {
            cells,
            near: Sets::new(alloc, count, slots)?,
            below: Sets::new(alloc, count, slots)?,
        })
    }

    /// The least cell that holds the lead.
    #[inline]
    pub fn cell(&self, lead: Lead) -> usize {
        let mut k = 0;
        let mut value = lead.value;
        for _ in 0..lead.length {
            let Some(cell) = self.cells.get(k) else {
                break;
            };
            if cell.zero == 0 {
                break;
            }
            k = if value < 1 << 31 { cell.zero } else { cell.one };
            value <<= 1;
        }
        k
    }

    /// The slots of rows that meet a cell.
    #[inline]
    pub fn near(&self, cell: usize) -> &[u64] {
        self.near.set(cell)
    }

    /// The slots of rows that lie inside of a cell.
    #[inline]
    pub fn below(&self, cell: usize) -> &[u64] {
        self.below.set(cell)
    }

    /// Puts the slot of a row whose least cell this is into the sets, or takes it out.
    pub fn flip(&mut self, cell: usize, slot: usize) {
        let Some(found) = self.cells.get(cell) else {
            return;
        };
        for inner in cell..found.end {
            self.near.flip(inner, slot);
        }
        self.below.flip(cell, slot);
        self.flip_above(cell, slot);
    }

    /// Has the slot's row change from one lead to another.
    pub fn carry(&mut self, slot: usize, old: Lead, new: Lead) {
        let (old, new) = (self.cell(old), self.cell(new));
        if old != new {
            self.flip(old, slot);
            self.flip(new, slot);
        }
    }

    /// Flips the slot in the cells around a cell.
    fn flip_above(&mut self, cell: usize, slot: usize) {
        let mut k = cell;
        for _ in 0..32u32 {
            let Some(found) = self.cells.get(k) else {
                return;
            };
            if k == 0 {
                return;
            }
            k = found.up;
            self.near.flip(k, slot);
            self.below.flip(k, slot);
        }
    }
}

/// Pushes the cell of this many leading bits that holds these leads, which are sorted, and those inside of
/// it; the answer is its place.
fn part(
    cells: &mut Vec<Cell>,
    leads: &[Lead],
    depth: u32,
    up: usize,
    most: usize,
) -> Result<usize, Memory> {
    let k = cells.len();
    cells.push(Cell {
        zero: 0,
        one: 0,
        up,
        end: k.wrapping_add(1),
    })?;
    if depth >= 32 || leads.iter().filter(|lead| lead.length > depth).count() <= most {
        return Ok(k);
    }
    let cut = leads.partition_point(|lead| lead.value << depth < 1 << 31 || lead.length <= depth);
    let (zeros, ones) = leads.split_at(cut);
    let zero = part(cells, zeros, depth + 1, k, most)?;
    let one = part(cells, ones, depth + 1, k, most)?;
    let end = cells.len();
    if let Some(cell) = cells.get_mut(k) {
        *cell = Cell { zero, one, up, end };
    }
    Ok(k)
}
