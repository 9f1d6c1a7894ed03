//! Bits by which the entries of a table are parted well. Nothing is promised of them.

use razor_limits::Memory;
use std::alloc::Global;
use ternary_words::Entry;

/// Bits of a word.
const WIDTH: u32 = 104;

/// Entries that are looked at, spread over the table. Sets of them are numbers with a bit for each.
const SAMPLE: usize = 64;

/// The entries that have 1 at a bit, and those that have 0.
#[derive(Clone, Copy)]
struct Column {
    ones: u64,
    zeros: u64,
}

impl Column {
    /// What is left of a set near the entry with this number, where the bit is looked at too: those that it may meet there.
    fn near(self, number: usize, set: u64) -> u64 {
        let entry = 1 << (number % SAMPLE);
        if self.ones & entry != 0 {
            set & !self.zeros
        } else if self.zeros & entry != 0 {
            set & !self.ones
        } else {
            set
        }
    }
}

/// The bits by which the entries are parted: one after another, that by which the fewest pairs of entries may still meet.
pub(crate) fn parting_bits(alloc: Global, entries: &[Entry]) -> Result<u128, Memory> {
    let columns = columns(alloc, entries)?;
    let mut near = vec![in alloc; u64::MAX; SAMPLE]?;
    let mut bits = 0;
    for _ in 0..most_bits(entries.len()) {
        let Some((bit, column)) = best(&columns, &near) else {
            break;
        };
        near = narrowed(alloc, &near, column)?;
        bits |= 1 << (bit % WIDTH);
    }
    Ok(bits)
}

/// What is left of the sets near each entry, where the bit of the column is looked at too.
fn narrowed(alloc: Global, near: &[u64], column: Column) -> Result<Vec<u64>, Memory> {
    let mut narrowed = Vec::with_capacity(alloc, near.len())?;
    for (number, set) in near.iter().enumerate() {
        narrowed.push(column.near(number, *set))?;
    }
    Ok(narrowed)
}

/// How many bits part so many entries at most: there are then about as many parts as each has entries.
fn most_bits(entries: usize) -> u32 {
    (usize::BITS - entries.leading_zeros()) / 2
}

/// The columns of all bits.
fn columns(alloc: Global, entries: &[Entry]) -> Result<Vec<Column>, Memory> {
    let step = entries.len() / SAMPLE + 1;
    let mut columns = Vec::with_capacity(alloc, WIDTH as usize)?;
    for bit in 0..WIDTH {
        columns.push(column_at(entries, step, 1 << bit))?;
    }
    Ok(columns)
}

/// The column of a bit, of each entry that is so many behind the one before.
fn column_at(entries: &[Entry], step: usize, bit: u128) -> Column {
    let mut column = Column { ones: 0, zeros: 0 };
    for number in 0..SAMPLE {
        let Some(entry) = entries.get(number.wrapping_mul(step)) else {
            break;
        };
        if entry.word.value & bit != 0 {
            column.ones |= 1 << number;
        } else if entry.word.mask & bit != 0 {
            column.zeros |= 1 << number;
        }
    }
    column
}

/// The bit by which the fewest pairs may still meet, with its column; none where that isn't a twentieth fewer.
fn best(columns: &[Column], near: &[u64]) -> Option<(u32, Column)> {
    let before = near
        .iter()
        .fold(0, |sum: u32, set| sum.saturating_add(set.count_ones()));
    let mut fewest = before / 20 * 19;
    let mut best = None;
    for (bit, column) in (0..WIDTH).zip(columns) {
        let pairs = pairs(near, *column);
        if pairs < fewest {
            fewest = pairs;
            best = Some((bit, *column));
        }
    }
    best
}

/// How many pairs may still meet, where the bit of the column is looked at too.
fn pairs(near: &[u64], column: Column) -> u32 {
    near.iter().enumerate().fold(0, |sum: u32, (number, set)| {
        sum.saturating_add(column.near(number, *set).count_ones())
    })
}
