//! Sets of slots.

use razor_limits::Memory;
use std::alloc::Global;

/// Sets of slots, each a row of bits.
#[derive(Drop)]
pub(crate) struct Sets {
    /// Blocks of 64 slots.
    blocks: usize,
    bits: Vec<u64>,
}

impl Sets {
    /// So many empty sets of so many slots.
    pub fn new(alloc: Global, count: usize, slots: usize) -> Result<Sets, Memory> {
        let blocks = slots.div_ceil(64);
        Ok(Sets {
            blocks,
            bits: vec![in alloc; 0; blocks.saturating_mul(count)]?,
        })
    }

    /// The blocks of a set.
    #[inline]
    pub fn set(&self, k: usize) -> &[u64] {
        let from = k.wrapping_mul(self.blocks);
        self.bits
            .as_slice()
            .get(from..from.wrapping_add(self.blocks))
            .unwrap_or(&[])
    }

    /// Whether the slot is in the set.
    #[inline]
    pub fn has(&self, k: usize, slot: usize) -> bool {
        self.set(k)
            .get(slot / 64)
            .is_some_and(|block| *block >> (slot % 64) & 1 == 1)
    }

    /// Puts the slot into a set, or takes it out.
    #[inline]
    pub fn flip(&mut self, k: usize, slot: usize) {
        let place = k.wrapping_mul(self.blocks).wrapping_add(slot / 64);
        if let Some(block) = self.bits.get_mut(place) {
            *block ^= 1 << (slot % 64);
        }
    }
}

/// Keeps of the blocks what the set has too.
#[inline]
pub(crate) fn keep(blocks: &mut [u64], set: &[u64]) {
    for (block, other) in blocks.iter_mut().zip(set) {
        *block &= *other;
    }
}

/// How many slots are in the blocks.
pub(crate) fn count(blocks: &[u64]) -> usize {
    let mut count = 0usize;
    for block in blocks {
        count = count.wrapping_add(block.count_ones() as usize);
    }
    count
}

/// The slots of a block, from the lowest on.
#[derive(Clone, Copy)]
pub(crate) struct Block {
    first: usize,
    bits: u64,
}

impl Block {
    /// The slots of the block at this place.
    #[inline(always)]
    pub fn at(place: usize, bits: u64) -> Block {
        Block {
            first: place.wrapping_mul(64),
            bits,
        }
    }
}

impl Iterator for Block {
    type Item = usize;

    ghost use Rattle.std.specs.Iterator.{at_most};

    ghost remaining = { λ block. at_most block.bits };

    #[inline(always)]
    fn next(&mut self) -> Option<usize> {
        if self.bits == 0 {
            return None;
        }
        let lowest = self.bits.trailing_zeros();
        self.bits &= self.bits - 1;
        Some(self.first.wrapping_add(lowest as usize))
    }
}
