//! The entries that stand in slots.
ghost use Rattle.std.specs.Prelude.{◌≡◌, ◌++◌, ◌<◌, ◌^◌, None, length, replicate, IfOk, OnOk};
ghost use Rattle.bank_update.specs.Standing.{entries_in};
ghost use Rattle.slot_patch.specs.Ordered.{placed, places};

use razor_limits::Memory;
use std::alloc::Global;
use ternary_words::Entry;

/// Entries by rising slot, and their slots.
#[derive(Drop)]
pub(crate) struct Standing {
    pub(crate) slots: Vec<u32>,
    pub(crate) entries: Vec<Entry>,
}

impl Standing {
    ghost use Rattle.std.specs.Prelude.{◌≡◌, ◌++◌, OnOk};
    ghost use Rattle.std.specs.Option.{option_to_list};
    ghost use Rattle.slot_patch.specs.Ordered.{placed};

    /// Puts what this slot holds behind the others.
    fn put(&mut self, slot: u32, held: Option<Entry>) -> Result<(), Memory>
        ensures slots { OnOk result (self.new.slots.items ≡ self.old.slots.items ++ placed held slot) }
        ensures entries { OnOk result (self.new.entries.items ≡ self.old.entries.items ++ option_to_list held) }
    {
        push_slot(&mut self.slots, slot, held)?;
        if let Some(entry) = held {
            self.entries.push(entry)?;
        }
        Ok(())
    }
}

/// Puts the slot behind the others, if it holds an entry.
pub(crate) fn push_slot(slots: &mut Vec<u32>, slot: u32, held: Option<Entry>) -> Result<(), Memory>
    ensures { OnOk result (slots.new.items ≡ slots.old.items ++ placed held slot) }
{
    if held.is_some() {
        slots.push(slot)?;
    }
    Ok(())
}

/// The entries that stand in the slots.
pub(crate) fn standing_in(alloc: Global, held: &[Option<Entry>]) -> Result<Standing, Memory>
    requires { length held.now < 2 ^ 32 }
    ensures slots { IfOk result (λ standing. standing.slots.items ≡ places 0 held.now) }
    ensures entries { IfOk result (λ standing. standing.entries.items ≡ entries_in held.now) }
{
    let mut standing = Standing {
        slots: Vec::with_capacity(alloc, held.len())?,
        entries: Vec::with_capacity(alloc, held.len())?,
    };
    for slot in 0..held.len() {
        standing.put(slot as u32, held[slot])?;
    }
    Ok(standing)
}

/// So many slots, all of them empty.
pub(crate) fn empty_slots(alloc: Global, count: usize) -> Result<Vec<Option<Entry>>, Memory>
    ensures { IfOk result (λ slots. slots.items ≡ replicate count None) }
{
    Ok(vec![in alloc; None; count]?)
}
