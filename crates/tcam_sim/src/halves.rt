//! Columns of wide numbers as two columns of their halves.
ghost use Rattle.std.specs.Prelude.{◌≡◌, ◌/◌, ◌%◌, ◌^◌, ◌<◌, IfOk, length, replicate, slice_set};

use razor_limits::Memory;
use std::alloc::Global;

/// A column of numbers of 128 bits, as two columns of their halves of 64 bits.
#[derive(Drop)]
pub(crate) struct Halves {
    pub(crate) high: Vec<u64>,
    pub(crate) low: Vec<u64>,
}

impl Halves {
    /// So many numbers, all 0.
    pub(crate) fn new(alloc: Global, count: usize) -> Result<Halves, Memory>
        ensures high { IfOk result (λ halves. halves.high.items ≡ replicate count 0) }
        ensures low { IfOk result (λ halves. halves.low.items ≡ replicate count 0) }
    {
        Ok(Halves {
            high: vec![in alloc; 0; count]?,
            low: vec![in alloc; 0; count]?,
        })
    }

    /// Puts the number at the place.
    pub(crate) fn set(&mut self, place: usize, number: u128)
        requires high { place < length self.old.high.items }
        requires low { place < length self.old.low.items }
        ensures high { self.new.high.items ≡ slice_set self.old.high.items place (number / 2 ^ 64) }
        ensures low { self.new.low.items ≡ slice_set self.old.low.items place (number % 2 ^ 64) }
    {
        self.high[place] = (number >> 64) as u64;
        self.low[place] = (number % (1 << 64)) as u64;
    }
}
