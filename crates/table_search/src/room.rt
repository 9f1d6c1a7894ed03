//! The free slots of a memory, among the entries of a table.

use razor_limits::Memory;
use std::alloc::Global;

/// Gaps on either side of one that count as around it.
const NEAR: usize = 8;

/// How many slots are free in the gaps between the entries of a table: before each of them, and behind the last one.
#[derive(Drop)]
pub struct Room {
    alloc: Global,
    free: Vec<u32>,
}

/// Gaps side by side, from the first to the last.
#[derive(Clone, Copy)]
pub(crate) struct Gaps {
    pub first: usize,
    pub last: usize,
}

impl Room {
    /// None that is known of.
    pub fn unknown(alloc: Global) -> Room {
        Room {
            alloc,
            free: Vec::new(alloc),
        }
    }

    /// That of a memory with so many slots, where the entries stand in these, which rise.
    pub fn between(alloc: Global, slots: &[u32], count: u32) -> Result<Room, Memory> {
        let mut free = Vec::with_capacity(alloc, slots.len().saturating_add(1))?;
        let mut next = 0_u32;
        for slot in slots {
            free.push(slot.saturating_sub(next))?;
            next = slot.saturating_add(1);
        }
        free.push(count.saturating_sub(next))?;
        Ok(Room { alloc, free })
    }

    /// The same room once more.
    pub(crate) fn copy(&self) -> Result<Room, Memory> {
        Ok(Room {
            alloc: self.alloc,
            free: Vec::from_slice(self.alloc, &self.free)?,
        })
    }

    /// The gap behind the last entry.
    pub(crate) fn last(&self) -> usize {
        self.free.len().saturating_sub(1)
    }

    /// How many slots are free in the gaps.
    pub(crate) fn within(&self, gaps: Gaps) -> u32 {
        let mut sum = 0_u32;
        for free in self.free.get(gaps.first..=gaps.last).unwrap_or(&[]) {
            sum = sum.saturating_add(*free);
        }
        sum
    }

    /// How many are free in the gaps and around them.
    pub(crate) fn around(&self, gaps: Gaps) -> u32 {
        let last = gaps.last.saturating_add(NEAR).min(self.last());
        self.within(Gaps {
            first: gaps.first.saturating_sub(NEAR),
            last,
        })
    }

    /// Takes a free slot, where most are free in the gaps.
    pub(crate) fn take(&mut self, gaps: Gaps) {
        let mut most = gaps.first;
        for gap in gaps.first..=gaps.last {
            if self.free.get(gap) > self.free.get(most) {
                most = gap;
            }
        }
        if let Some(free) = self.free.get_mut(most) {
            *free = free.saturating_sub(1);
        }
    }

    /// The last gap with a free slot before this one.
    pub(crate) fn last_before(&self, gap: usize) -> Option<usize> {
        self.free.get(..gap)?.iter().rposition(|free| *free > 0)
    }

    /// The first gap with a free slot behind this one.
    pub(crate) fn first_behind(&self, gap: usize) -> Option<usize> {
        let next = gap.saturating_add(1);
        let further = self.free.get(next..)?.iter().position(|free| *free > 0)?;
        Some(next.saturating_add(further))
    }
}
