//! Loading a table into a memory.
ghost use Rattle.std.specs.Prelude.{◌≡◌, ◌+◌, ◌≤◌, ◌<◌, ℕ, None, length, max, replicate, IfOk, OnOk, OnErr, take};
ghost use Rattle.razor_limits.specs.Counts.{Rose};
ghost use Rattle.tcam_sim.specs.Bank.{slots_of};
ghost use Rattle.tcam_sim.specs.Slots.{filled};
ghost use Rattle.tcam_sim.specs.Tries.{counted_times};

use crate::bank::Bank;
use crate::device::Device;
use razor_limits::{Failed, Memory};
use std::alloc::Global;
use ternary_words::Table;

/// Puts the entries of a table into the first slots of a device whose slots are all empty, in their order.
///
/// It takes no memory.
pub fn load<V: Device>(device: &mut V, table: &Table) -> Result<(), Failed>
    requires empty { V.held device.old ≡ replicate (length (V.held device.old)) None }
    requires room { length table.now.entries.items ≤ length (V.held device.old) }
    ensures ok { OnOk result (V.held device.new ≡ filled (length (V.held device.old)) table.now.entries.items) }
    ensures tried { OnOk result (V.tries device.new ≡ counted_times (length table.now.entries.items) (V.tries device.old)) }

    // At a failure a front of the entries is in its slots, and the write of the next one was the last try.
    ensures err { OnErr result ((n : ℕ) × (n < length table.now.entries.items)
        × (V.held device.new ≡ filled (length (V.held device.old)) (take n table.now.entries.items))
        × (V.tries device.new ≡ counted_times (n + 1) (V.tries device.old))) }
    ensures failed { OnErr result (Rose (V.faults device.old) (V.faults device.new)) }
    ensures counts { V.faults device.old ≤ V.faults device.new }
{
    for (slot, entry) in table.entries.iter().enumerate() {
        device.set(slot as u32, Some(*entry))?;
    }
    Ok(())
}

/// A bank with the entries of a table in its first slots: as many slots as entries, and at least one.
pub fn loaded(alloc: Global, table: &Table) -> Result<Bank, Memory>
    ensures held { IfOk result (λ bank. slots_of bank ≡ filled (length (slots_of bank)) table.now.entries.items) }
    ensures slots { IfOk result (λ bank. length (slots_of bank) ≡ max (length table.now.entries.items) 1) }
{
    let slots = (table.entries.len() as u32).max(1);
    let mut bank = Bank::new(alloc, slots)?;
    load(&mut bank, table).unwrap();
    Ok(bank)
}
