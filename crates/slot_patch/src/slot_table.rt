//! A table in any slots, and patches of it.
ghost use Rattle.std.specs.Prelude.{◌≡◌, ◌<◌, length, slice_get};

use crate::names::Names;
use crate::plan::{Plan, Planned};
use crate::planning::plan_update;
use crate::refusal::PatchRefusal;
use crate::standing::{Standing, empty_slots, standing_in};
use bank_update::{StandingTable, Write};
use razor_limits::Memory;
use std::alloc::Global;
use std::marker::Model;
use ternary_words::{Entry, Table};

/// A plan, and the names of decisions behind it: those of the table before it, and those that are new.
#[derive(Drop)]
pub struct Patch {
    pub(crate) plan: Plan,
    pub(crate) names: Names,
}

/// A table whose entries stand in any slots, in their order.
#[derive(Drop)]
pub struct SlotTable {
    slots: Vec<Option<Entry>>,
    names: Names,
}

impl Model for SlotTable {
    ghost use Rattle.std.specs.Prelude.{◌<◌, ◌^◌, length};
    ghost use Rattle.bank_update.specs.Standing.{Standing};

    ghost Value = { Standing };

    ghost view = { λ t. record { slots = t.slots.items; names = t.names } };

    ghost invariant = { λ t. length t.slots.items < 2 ^ 32 };
}

impl SlotTable {
    ghost use Rattle.std.specs.Prelude.{◌≡◌, [], None, IfOk, IfErr, length, replicate};
    ghost use Rattle.ternary_words.specs.Limits.{AreNumbered};
    ghost use Rattle.bank_update.specs.Standing.{entries_in};
    ghost use Rattle.slot_patch.specs.Ordered.{places};
    ghost use Rattle.slot_patch.specs.Patching.{IsPatchTo, IsUnplanned, plan_of};

    /// So many slots, all of them empty.
    pub(crate) fn empty(alloc: Global, slots: u32) -> Result<Self, Memory>
        ensures { IfOk result (λ table. table ≡ record { slots = replicate slots None; names = [] }) }
    {
        Ok(SlotTable {
            slots: empty_slots(alloc, slots as usize)?,
            names: Names::new(alloc),
        })
    }

    /// The slots that hold entries, from the first to the last.
    pub fn taken(&self, alloc: Global) -> Result<Vec<u32>, Memory>
        ensures { IfOk result (λ slots. slots.items ≡ places 0 self.now.slots) }
    {
        let Standing { slots, .. } = standing_in(alloc, &self.slots)?;
        Ok(slots)
    }

    /// The patch that leads to the table. It is refused where both need more slots than there are, and where memory is.
    pub(crate) fn patch_to(&self, alloc: Global, table: &Table) -> Result<Patch, PatchRefusal>
        requires { AreNumbered (length self.now.names) (entries_in self.now.slots) }
        ensures patch { IfOk result (λ patch. IsPatchTo self.now table.now (plan_of patch)) }
        ensures refused { IfErr result (IsUnplanned self.now table.now) }
    {
        let mut names = self.names.copy(alloc)?;
        let entries = names.renumber(alloc, table)?;
        let planned = plan_update(alloc, &self.slots, &entries)?;
        match planned {
            Planned::Ready(plan) => Ok(Patch { plan, names }),
            Planned::NoRoom(needed) => Err(PatchRefusal::NoRoom {
                needed: needed as u64,
                slots: self.slots.len() as u32,
            }),
        }
    }
}

impl StandingTable for SlotTable {
    ghost use Rattle.slot_patch.specs.Patching.{KeepsSlots, plan_of};

    type Plan = Patch;

    ghost standing = { λ t. t };

    ghost planned = { λ old patch. plan_of patch };

    ghost suits = { KeepsSlots };

    fn count(&self, patch: &Patch) -> u64 {
        let _slots = &self.slots;
        patch.plan.writes.len() as u64
    }

    fn write(&self, patch: &Patch, place: u64) -> Write {
        let _slots = &self.slots;
        write_at(&patch.plan.writes, place as usize)
    }

    fn puts(&self, patch: &Patch, slot: u32) -> bool {
        let _slots = &self.slots;
        match held_at(&patch.plan.table, slot as usize) {
            Some(held) => held.is_some(),
            None => false,
        }
    }

    fn name(&self, decision: u32) -> &str {
        self.names.name(decision)
    }

    fn new_name<'a>(&self, patch: &'a Patch, decision: u32) -> &'a str {
        let _slots = &self.slots;
        patch.names.name(decision)
    }

    fn settle(&mut self, patch: Patch) {
        let Patch { plan, names } = patch;
        self.slots = plan.table;
        self.names = names;
    }
}

/// The write at a place, counted from 0.
fn write_at(writes: &[Write], place: usize) -> Write
    requires { place < length writes.now }
    ensures { slice_get writes.now place ≡ Some result }
{
    writes[place]
}

/// What the slot with this number holds, if there is one.
fn held_at(slots: &[Option<Entry>], slot: usize) -> Option<Option<Entry>>
    ensures { result ≡ slice_get slots.now slot }
{
    slots.get(slot).copied()
}
