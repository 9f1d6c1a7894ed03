//! The lookup of a memory.
ghost use Rattle.std.specs.Prelude.{◌≡◌, ◌*◌, ◌≤◌, ◌<◌, IfNone, IfSome, length, position};
ghost use Rattle.tcam_sim.specs.Bank.{slot_at, slots_of};
ghost use Rattle.tcam_sim.specs.Keys.{key_bits};
ghost use Rattle.tcam_sim.specs.Search.{IsFirst, NoneAgree};
ghost use Rattle.tcam_sim.specs.Slots.{slot_agrees};

use crate::bank::Bank;
use crate::key::Key;

impl Bank {
    /// Whether the slot holds an entry, whose word agrees with the key.
    fn agrees(&self, slot: usize, key: Key) -> bool
        requires { slot < length self.now.decisions.items }
        ensures { result ≡ slot_agrees (key_bits key) (slot_at self.now slot) }
    {
        let high = (key.high ^ self.values.high[slot]) & self.masks.high[slot];
        let low = (key.low ^ self.values.low[slot]) & self.masks.low[slot];
        high | low | self.vacant[slot] == 0
    }

    /// The least slot from `from` on that agrees with the key.
    fn first_from(&self, from: usize, key: Key) -> Option<usize>
        requires { from ≤ length self.now.decisions.items }
        ensures found { IfSome result (IsFirst (slots_of self.now) (key_bits key) from (length self.now.decisions.items)) }
        ensures none { IfNone result (NoneAgree (slots_of self.now) (key_bits key) from (length self.now.decisions.items)) }
    {
        for slot in from..self.decisions.len() {
            if self.agrees(slot, key) {
                return Some(slot);
            }
        }
        None
    }

    /// The least slot that agrees with the key, of so many times eight.
    fn first_in_eights(&self, eights: usize, key: Key) -> Option<usize>
        requires { 8 * eights ≤ length self.now.decisions.items }
        ensures found { IfSome result (IsFirst (slots_of self.now) (key_bits key) 0 (8 * eights)) }
        ensures none { IfNone result (NoneAgree (slots_of self.now) (key_bits key) 0 (8 * eights)) }
    {
        for count in 0..eights {
            if let Some(slot) = self.first_of_eight(8 * count, key) {
                return Some(slot);
            }
        }
        None
    }

    /// The least slot that agrees with the key: eight are compared at once, and what is left one by one.
    pub(crate) fn first(&self, key: Key) -> Option<usize>
        ensures first { result ≡ position (slot_agrees (key_bits key)) (slots_of self.now) }
        ensures within { IfSome result (λ slot. slot < length self.now.decisions.items) }
    {
        let eights = self.decisions.len() / 8;
        match self.first_in_eights(eights, key) {
            Some(slot) => Some(slot),
            None => self.first_from(8 * eights, key),
        }
    }
}
