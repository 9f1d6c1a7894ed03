//! Comparing eight slots at once.
ghost use Rattle.std.specs.Prelude.{◌≡◌, ◌+◌, ◌<◌, ◌≤◌, ◌^◌, ◌==◌, ℕ, IfNone, IfSome, length, slice_index};
ghost use Rattle.tcam_sim.specs.Bank.{slot_at, slots_of};
ghost use Rattle.tcam_sim.specs.Keys.{key_bits};
ghost use Rattle.tcam_sim.specs.Search.{IsFirst, NoneAgree};
ghost use Rattle.tcam_sim.specs.Slots.{slot_agrees};
ghost use Rattle.tcam_sim.specs.Vectors.{AreLanes};

use crate::bank::Bank;
use crate::key::Key;
use std::simd::prelude::*;

/// Eight numbers of a column.
#[inline]
fn eight(column: &[u64], start: usize) -> u64x8
    requires { start + 8 ≤ length column.now }
    ensures lanes { AreLanes result (λ i. slice_index column.now (start + i)) }
    ensures fits { (i : ℕ) → i < 8 → slice_index column.now (start + i) < 2 ^ 64 }
{
    u64x8::from_slice(&column[start..])
}

impl Bank {
    /// For each of eight slots a number that is 0 where the slot holds an entry whose word agrees with the
    /// key: the bits that differ under its mask, and whether it is vacant.
    #[inline]
    fn differences(&self, start: usize, key: Key) -> u64x8
        requires { start + 8 ≤ length self.now.decisions.items }
        ensures eight { length result ≡ 8 }
        ensures lanes { (i : ℕ) → i < 8 → (slice_index result i == 0) ≡ slot_agrees (key_bits key) (slot_at self.now (start + i)) }
    {
        let high = (u64x8::splat(key.high) ^ eight(&self.values.high, start))
            & eight(&self.masks.high, start);
        let low = (u64x8::splat(key.low) ^ eight(&self.values.low, start))
            & eight(&self.masks.low, start);
        high | low | eight(&self.vacant, start)
    }

    /// The least of eight slots that agrees with the key.
    #[inline]
    pub(crate) fn first_of_eight(&self, start: usize, key: Key) -> Option<usize>
        requires { start + 8 ≤ length self.now.decisions.items }
        ensures found { IfSome result (IsFirst (slots_of self.now) (key_bits key) start (start + 8)) }
        ensures none { IfNone result (NoneAgree (slots_of self.now) (key_bits key) start (start + 8)) }
    {
        let hits = self
            .differences(start, key)
            .simd_eq(u64x8::splat(0))
            .to_bitmask();
        if hits == 0 {
            None
        } else {
            Some(start + hits.trailing_zeros() as usize)
        }
    }
}
