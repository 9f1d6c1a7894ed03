//! A ternary memory of which chosen writes fail.
ghost use Rattle.razor_limits.specs.declared.limits.TheConstants.{MOST_ENTRIES};

use crate::bank::Bank;
use crate::device::Device;
use field_boxes::Header;
use razor_limits::{Failed, Memory};
use std::alloc::Global;
use ternary_words::Entry;

/// A bank of which the calls of `set` that were chosen fail.
#[derive(Drop)]
pub struct FaultyBank {
    bank: Bank,
    failing: Vec<u64>,
    calls: u64,
    faults: u64,
}

impl FaultyBank {
    ghost use Rattle.std.specs.Prelude.{◌≡◌, ◌≤◌, [], ◌∷◌, ◌++◌, None, IfOk, OnOk, OnErr, replicate};
    ghost use Rattle.tcam_sim.specs.FaultyBank.{chosen_sets, faulty_slots, set_fails, set_faults, sets_made};
    ghost use Rattle.razor_limits.specs.Counts.{counted};

    /// A bank with so many slots, from 1 to 262,144, all of them empty.
    pub fn new(alloc: Global, slots: u32) -> Result<FaultyBank, Memory>
        requires some { 1 ≤ slots }
        requires few { slots ≤ MOST_ENTRIES }
        ensures empty { IfOk result (λ bank. faulty_slots bank ≡ replicate slots None) }
        ensures calm { IfOk result (λ bank. (chosen_sets bank ≡ []) × (sets_made bank ≡ 0) × (set_faults bank ≡ 0)) }
    {
        Ok(FaultyBank {
            bank: Bank::new(alloc, slots)?,
            failing: Vec::new(alloc),
            calls: 0,
            faults: 0,
        })
    }

    /// Lets the call of `set` with this number fail. The first call has number 1.
    pub fn fail_at(&mut self, call: u64) -> Result<(), Memory>
        ensures ok { OnOk result (chosen_sets self.new ≡ chosen_sets self.old ++ call ∷ []) }
        ensures err { OnErr result (chosen_sets self.new ≡ chosen_sets self.old) }
        ensures slots { faulty_slots self.new ≡ faulty_slots self.old }
        ensures counts { (sets_made self.new ≡ sets_made self.old) × (set_faults self.new ≡ set_faults self.old) }
    {
        self.failing.push(call)?;
        Ok(())
    }

    /// Numbers a call of `set`, and answers whether it is to fail.
    fn begin(&mut self) -> bool
        ensures chosen { result ≡ set_fails self.old }
        ensures counted { self.new ≡ record self.old { calls = counted self.old.calls } }
    {
        self.calls = self.calls.saturating_add(1);
        self.failing.contains(&self.calls)
    }
}

impl Device for FaultyBank {
    ghost use Rattle.std.specs.Prelude.{◌≡◌, ◌≤◌, ◌<◌, Ok, Err, length, option_map, slice_set, OnOk, OnErr, if◌then◌else◌};
    ghost use Rattle.razor_limits.specs.Counts.{Rose, counted};
    ghost use Rattle.tcam_sim.specs.FaultyBank.{chosen_sets, faulty_slots, set_fails, set_faults, sets_made};
    ghost use Rattle.tcam_sim.specs.Slots.{look_up, stored};

    ghost held = { faulty_slots };

    ghost faults = { set_faults };

    ghost tries = { sets_made };

    fn slots(&self) -> u32
        ensures { result ≡ length (faulty_slots self.now) }
    {
        self.bank.slots()
    }

    fn set(&mut self, slot: u32, entry: Option<Entry>) -> Result<(), Failed>
        requires { slot < length (faulty_slots self.old) }
        ensures ok { OnOk result (faulty_slots self.new ≡ slice_set (faulty_slots self.old) slot (option_map stored entry)) }
        ensures err { OnErr result (faulty_slots self.new ≡ faulty_slots self.old) }
        ensures failed { OnErr result (Rose (set_faults self.old) (set_faults self.new)) }
        ensures counts { set_faults self.old ≤ set_faults self.new }

        // Exactly what it answers, and how the counts go on.
        ensures answer { result ≡ (if set_fails self.old then Err (record {}) else Ok tt) }
        ensures tried { sets_made self.new ≡ counted (sets_made self.old) }
        ensures faults { set_faults self.new ≡ (if set_fails self.old then counted (set_faults self.old) else set_faults self.old) }
        ensures chosen { chosen_sets self.new ≡ chosen_sets self.old }
    {
        if self.begin() {
            self.faults = self.faults.saturating_add(1);
            return Err(Failed);
        }
        self.bank.set(slot, entry)
    }

    fn look(&self, header: &Header) -> Option<(u32, u32)>
        ensures { result ≡ look_up (faulty_slots self.now) header.now.values }
    {
        self.bank.look(header)
    }
}
