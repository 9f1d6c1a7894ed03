//! A bank with an index of its slots.
ghost use Rattle.std.specs.Prelude.{◌≡◌, IfSome, length};
ghost use Rattle.std.proofs.Props.{props};
ghost use Rattle.tcam_sim.specs.Bank.{slots_of};
ghost use Rattle.tcam_sim.specs.Slots.{filled};

use crate::index::Index;
use field_boxes::Header;
use razor_limits::{Failed, Memory};
use std::alloc::Global;
use tcam_sim::{Bank, Device, loaded};
use ternary_words::{Entry, Table};

/// Fewer entries than these get no index.
const LEAST: usize = 256;

/// A bank, and where it has one, an index of the entries that were loaded into it.
#[derive(Drop)]
pub struct IndexedBank {
    bank: Bank,
    index: Option<Index>,
    ghost same: { IfSome index (λ index. slots_of bank ≡ filled (length (slots_of bank)) index.entries.items) } by { Prim.hlevel props },
}

impl IndexedBank {
    ghost use Rattle.std.specs.Prelude.{◌≡◌, IfOk, length, max};
    ghost use Rattle.tcam_sim.specs.Slots.{filled};
    ghost use Rattle.bank_index.specs.IndexedBank.{indexed_sets, indexed_slots};

    /// A bank with the entries of a table in its first slots, as many slots as entries and at least one; and an index
    /// of them where they are many.
    pub fn loaded(alloc: Global, table: &Table) -> Result<IndexedBank, Memory>
        ensures held { IfOk result (λ bank. indexed_slots bank ≡ filled (length (indexed_slots bank)) table.now.entries.items) }
        ensures slots { IfOk result (λ bank. length (indexed_slots bank) ≡ max (length table.now.entries.items) 1) }
    {
        let bank = loaded(alloc, table)?;
        if table.entries.len() < LEAST {
            return Ok(IndexedBank { bank, index: None });
        }
        let index = Index::of(alloc, &table.entries)?;
        Ok(IndexedBank {
            bank,
            index: Some(index),
        })
    }
}

impl Device for IndexedBank {
    ghost use Rattle.std.specs.Prelude.{◌≡◌, ◌≤◌, ◌<◌, length, Ok, option_map, slice_set, OnOk, OnErr};
    ghost use Rattle.razor_limits.specs.Counts.{counted, Rose};
    ghost use Rattle.tcam_sim.specs.Slots.{look_up, stored};
    ghost use Rattle.bank_index.specs.IndexedBank.{indexed_sets, indexed_slots};

    ghost held = { indexed_slots };

    ghost faults = { λ _. 0 };

    ghost tries = { indexed_sets };

    fn slots(&self) -> u32
        ensures { result ≡ length (indexed_slots self.now) }
    {
        self.bank.slots()
    }

    /// The index is given up.
    fn set(&mut self, slot: u32, entry: Option<Entry>) -> Result<(), Failed>
        requires { slot < length (indexed_slots self.old) }
        ensures succeeds { result ≡ Ok tt }
        ensures set { indexed_slots self.new ≡ slice_set (indexed_slots self.old) slot (option_map stored entry) }
        ensures tried { indexed_sets self.new ≡ counted (indexed_sets self.old) }
    {
        self.index = None;
        self.bank.set(slot, entry)
    }

    fn look(&self, header: &Header) -> Option<(u32, u32)>
        ensures { result ≡ look_up (indexed_slots self.now) header.now.values }
    {
        let Some(index) = &self.index else {
            return self.bank.look(header);
        };
        let Some(slots) = index.slots(header) else {
            return self.bank.look(header);
        };
        let slot = index.first(slots, header)?;
        Some((slot, index.decision(slot)))
    }
}
