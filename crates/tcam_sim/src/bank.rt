//! A ternary memory that never fails.
ghost use Rattle.std.specs.Prelude.{◌≡◌, ◌≤◌, length};
ghost use Rattle.razor_limits.specs.declared.limits.TheConstants.{MOST_ENTRIES};
ghost use Rattle.tcam_sim.specs.Columns.{AreNarrow, HasLength, KeepNone};

use crate::device::Device;
use crate::halves::Halves;
use crate::key::Key;
use field_boxes::Header;
use razor_limits::{Failed, Memory};
use std::alloc::Global;
use ternary_words::Entry;

/// A memory whose calls never fail, with at most 262,144 slots.
///
/// It keeps a column of each half of the values and of the masks, so that a lookup compares eight slots
/// at once, a column of decisions, and a column that has 0 where a slot holds an entry and 1 where it is
/// empty; and it counts the calls of `set`.
#[derive(Drop)]
pub struct Bank {
    pub(crate) values: Halves,
    pub(crate) masks: Halves,
    pub(crate) decisions: Vec<u32>,
    pub(crate) vacant: Vec<u64>,
    pub(crate) sets: u64,
    ghost values_long: { HasLength values (length decisions.items) },
    ghost masks_long: { HasLength masks (length decisions.items) },
    ghost vacant_long: { length vacant.items ≡ length decisions.items },
    ghost few: { length decisions.items ≤ MOST_ENTRIES },
    ghost cleared: { KeepNone vacant.items decisions.items },
    ghost narrow: { AreNarrow masks.high.items },
}

impl Bank {
    ghost use Rattle.std.specs.Prelude.{◌≡◌, ◌≢◌, ◌≤◌, ◌<◌, ◌^◌, None, IfOk, length, replicate, slice_set};
    ghost use Rattle.razor_limits.specs.Counts.{counted};
    ghost use Rattle.tcam_sim.specs.Bank.{sets_of, slot_with, slots_of};

    /// A bank with so many slots, from 1 to 262,144, all of them empty.
    pub fn new(alloc: Global, slots: u32) -> Result<Bank, Memory>
        requires some { 1 ≤ slots }
        requires few { slots ≤ MOST_ENTRIES }
        ensures empty { IfOk result (λ bank. slots_of bank ≡ replicate slots None) }
        ensures untried { IfOk result (λ bank. sets_of bank ≡ 0) }
    {
        let count = slots as usize;
        Ok(Bank {
            values: Halves::new(alloc, count)?,
            masks: Halves::new(alloc, count)?,
            decisions: vec![in alloc; 0; count]?,
            vacant: vec![in alloc; 1; count]?,
            sets: 0,
        })
    }

    /// Writes all columns at the slot, which is vacant unless `vacant` is 0, and counts the write.
    fn put(&mut self, slot: usize, mask: u128, value: u128, decision: u32, vacant: u64)
        requires within { slot < length self.old.decisions.items }
        requires narrow { mask < 2 ^ 104 }
        requires cleared { vacant ≢ 0 → decision ≡ 0 }
        ensures slots { slots_of self.new ≡ slice_set (slots_of self.old) slot (slot_with vacant mask value decision) }
        ensures counted { sets_of self.new ≡ counted (sets_of self.old) }
    {
        self.masks.set(slot, mask);
        self.values.set(slot, value);
        self.decisions[slot] = decision;
        self.vacant[slot] = vacant;
        self.sets = self.sets.saturating_add(1);
    }
}

impl Device for Bank {
    ghost use Rattle.std.specs.Prelude.{◌≡◌, ◌≤◌, ◌<◌, length, Ok, option_map, slice_set, OnOk, OnErr};
    ghost use Rattle.razor_limits.specs.Counts.{counted, Rose};
    ghost use Rattle.tcam_sim.specs.Bank.{sets_of, slots_of};
    ghost use Rattle.tcam_sim.specs.Slots.{look_up, stored};

    ghost held = { slots_of };

    ghost faults = { λ _. 0 };

    ghost tries = { sets_of };

    fn slots(&self) -> u32
        ensures { result ≡ length (slots_of self.now) }
    {
        self.decisions.len() as u32
    }

    fn set(&mut self, slot: u32, entry: Option<Entry>) -> Result<(), Failed>
        requires { slot < length (slots_of self.old) }
        ensures succeeds { result ≡ Ok tt }
        ensures set { slots_of self.new ≡ slice_set (slots_of self.old) slot (option_map stored entry) }
        ensures tried { sets_of self.new ≡ counted (sets_of self.old) }
    {
        let slot = slot as usize;
        match entry {
            Some(entry) => self.put(slot, entry.word.mask, entry.word.value, entry.decision, 0),
            None => self.put(slot, 0, 0, 0, 1),
        }
        Ok(())
    }

    fn look(&self, header: &Header) -> Option<(u32, u32)>
        ensures { result ≡ look_up (slots_of self.now) header.now.values }
    {
        let slot = self.first(Key::of(header))?;
        Some((slot as u32, self.decisions[slot]))
    }
}
