//! The slots of a layout among those of a memory.
ghost use Rattle.std.specs.Prelude.{◌≡◌, ◌≤◌, ◌<◌, ◌^◌, List, Option, length, IfOk};
ghost use Rattle.slot_patch.specs.Layouts.{IsLayout};
ghost use Rattle.slot_patch.specs.Merging.{IsLayoutOf};
ghost use Rattle.slot_patch.specs.Ordered.{places};
ghost use Rattle.ternary_words.specs.declared.entry.Entry.{Entry as SeenEntry};

use crate::layout::{Layout, entry_at};
use crate::standing::push_slot;
use crate::wishes::wished;
use razor_limits::Memory;
use std::alloc::Global;
use ternary_words::Entry;

/// What slots are to hold, and the slots of the old entries.
#[derive(Drop)]
pub(crate) struct Spread {
    pub(crate) next: Vec<Option<Entry>>,
    pub(crate) slots: Vec<u32>,
}

impl Spread {
    ghost use Rattle.std.specs.Prelude.{◌≡◌, ◌≤◌, ◌<◌, ◌^◌, ◌++◌, [], suc, List, length, option_map, IfOk, OnOk};
    ghost use Rattle.std.specs.Option.{option_to_list};
    ghost use Rattle.ternary_words.specs.declared.entry.Entry.{Entry as SeenEntry};
    ghost use Rattle.tcam_sim.specs.Slots.{stored};
    ghost use Rattle.slot_patch.specs.Banks.{HaveOneWord};
    ghost use Rattle.slot_patch.specs.Merging.{IsSpread};

    /// No slot, and room for so many with so many entries.
    fn with_room(alloc: Global, slots: usize, entries: usize) -> Result<Spread, Memory>
        ensures none { IfOk result (IsSpread [] []) }
        ensures length { IfOk result (λ spread. length spread.next.items ≡ 0) }
    {
        Ok(Spread {
            next: Vec::with_capacity(alloc, slots)?,
            slots: Vec::with_capacity(alloc, entries)?,
        })
    }

    /// Puts empty slots as far as to this one.
    fn pad(&mut self, slot: usize) -> Result<(), Memory>
        requires { length self.old.next.items ≤ slot }
        ensures spread { (old new : List SeenEntry) → IsSpread old new self.old → OnOk result (IsSpread old new self.new) }
        ensures length { OnOk result (length self.new.next.items ≡ slot) }
    {
        for _ in self.next.len()..slot {
            self.next.push(None)?;
        }
        Ok(())
    }

    /// Puts entries into this slot.
    fn put(&mut self, slot: usize, old: Option<Entry>, new: Option<Entry>) -> Result<(), Memory>
        requires few { slot < 2 ^ 32 }
        requires behind { length self.old.next.items ≤ slot }
        ensures spread { (olds news : List SeenEntry) → HaveOneWord (option_map stored old) (option_map stored new) → IsSpread olds news self.old →
            OnOk result (IsSpread (olds ++ option_to_list old) (news ++ option_to_list new) self.new) }
        ensures length { OnOk result (length self.new.next.items ≡ suc slot) }
    {
        self.pad(slot)?;
        push_slot(&mut self.slots, slot as u32, old)?;
        self.next.push(new)?;
        Ok(())
    }
}

/// The slots of a layout of both tables among so many, where the wish of each is one of them. Any wish is right: a slot comes behind
/// those before it and leaves room for those behind it.
pub(crate) fn spread_out(
    alloc: Global,
    old: &[Entry],
    new: &[Entry],
    compact: &Layout,
    wishes: &[usize],
    slots: usize,
) -> Result<Spread, Memory>
    requires layout { IsLayoutOf old.now new.now compact.now }
    requires room { length compact.now.start.items ≤ slots }
    requires few { slots < 2 ^ 32 }
    ensures { IfOk result (λ spread. (start : List (Option SeenEntry)) × IsLayout slots old.now new.now start spread.next.items × (places 0 start ≡ spread.slots.items)) }
{
    let count = compact.start.len();
    let mut spread = Spread::with_room(alloc, slots, count)?;
    for place in 0..count {
        let least = spread.next.len();
        let slot = wished(wishes, place, least, slots - (count - place));
        let before = entry_at(old, compact.start[place]);
        let behind = entry_at(new, compact.next[place]);
        spread.put(slot, before, behind)?;
    }
    spread.pad(slots)?;
    Ok(spread)
}
