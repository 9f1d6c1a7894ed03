//! A table whose entries stand side by side, and the writes of a swap to another one.
ghost use Rattle.std.specs.Prelude.{◌≡◌, slice_get};

use crate::refusal::BeginRefusal;
use crate::standing_table::StandingTable;
use crate::write::Write;
use std::marker::Model;
use ternary_words::{Entry, Table};

/// A table whose entries stand, or are to stand, in the slots from `start` on.
#[derive(Drop)]
pub struct Placed {
    pub(crate) table: Table,
    pub(crate) start: u32,
}

impl Placed {
    ghost use Rattle.std.specs.Prelude.{◌≡◌, ◌+◌, ◌<◌, ◌^◌, ◌==◌, length, if◌then◌else◌};
    ghost use Rattle.bank_update.specs.Writes.{in_block};

    /// The slot of the first entry, 0 where there is none.
    fn first_slot(&self) -> u32
        ensures { result ≡ (if length self.now.table.entries.items == 0 then 0 else self.now.start) }
    {
        if self.table.entries.is_empty() {
            0
        } else {
            self.start
        }
    }

    /// Whether an entry is to stand in the slot.
    fn has(&self, slot: u32) -> bool
        requires { self.now.start + length self.now.table.entries.items < 2 ^ 32 }
        ensures { result ≡ in_block self.now.start (length self.now.table.entries.items) slot }
    {
        self.start <= slot && slot < self.start + self.table.entries.len() as u32
    }
}

/// The table of a memory of so many slots, whose entries stand side by side.
///
/// At first there is none, which counts as one of no entries.
#[derive(Drop)]
pub struct Block {
    slots: u32,
    placed: Option<Placed>,
}

impl Model for Block {
    ghost use Rattle.std.specs.Prelude.{◌+◌, ◌≤◌, length, IfSome};
    ghost use Rattle.bank_update.specs.Kept.{block_of};
    ghost use Rattle.bank_update.specs.Standing.{Standing};

    ghost Value = { Standing };

    ghost view = { λ b. block_of b.slots b.placed };

    ghost invariant = { λ b. IfSome b.placed (λ p. p.start + length p.table.entries.items ≤ b.slots) };
}

impl Block {
    ghost use Rattle.std.specs.Prelude.{◌≡◌, ◌+◌, ◌≤◌, ◌<◌, ◌^◌, length};
    ghost use Rattle.razor_limits.specs.declared.limits.TheConstants.{MOST_ENTRIES};
    ghost use Rattle.bank_update.specs.Standing.{entries_in};
    ghost use Rattle.bank_update.specs.Whole.{IsRoomFor, IsTogether, room_for, start_of, unsettled};

    /// No table in so many slots.
    pub(crate) fn none(slots: u32) -> Self
        ensures { result ≡ (unsettled slots).settled }
    {
        Block {
            slots,
            placed: None,
        }
    }

    /// The entries of the table.
    fn entries(&self) -> &[Entry]
        ensures entries { result.now ≡ entries_in self.now.slots }
        ensures few { length result.now ≤ MOST_ENTRIES }
    {
        match &self.placed {
            Some(placed) => &placed.table.entries,
            None => &[],
        }
    }

    /// The slot from which on the entries stand, 0 for a table of no entries.
    fn start(&self) -> u32
        ensures start { result ≡ start_of self.now.slots }
        ensures inside { result + length (entries_in self.now.slots) ≤ length self.now.slots }
    {
        match &self.placed {
            Some(placed) => placed.first_slot(),
            None => 0,
        }
    }

    /// How many slots there are.
    fn slots(&self) -> u32
        ensures { result ≡ length self.now.slots }
    {
        self.slots
    }

    /// The entries stand side by side, inside the memory. It does nothing.
    pub(crate) fn stands_together(&self)
        ensures together { IsTogether self.now.slots }
        ensures inside { start_of self.now.slots + length (entries_in self.now.slots) ≤ length self.now.slots }
    {
        let _slots = self.slots;
    }

    /// Where there is room for a table, its entries are inside the memory. It does nothing.
    fn fits(&self, plan: &Placed)
        requires { IsRoomFor self.now plan.now }
        ensures inside { plan.now.start + length plan.now.table.entries.items ≤ length self.now.slots }
        ensures slots { length self.now.slots < 2 ^ 32 }
    {
        let _slots = self.slots();
    }

    /// Where so many entries would begin: directly below the table, else directly above it.
    pub(crate) fn room_for(&self, wanted: u32) -> Result<u32, BeginRefusal>
        ensures { result ≡ room_for self.now wanted }
    {
        let above = self.start();
        let count = self.entries().len() as u32;
        let below = self.slots() - above - count;
        if wanted <= below {
            return Ok(above + count);
        }
        if wanted <= above {
            return Ok(above - wanted);
        }
        Err(BeginRefusal::NoRoom {
            free_above: above,
            free_below: below,
            wanted,
        })
    }
}

impl StandingTable for Block {
    ghost use Rattle.bank_update.specs.Kept.{swap_to};
    ghost use Rattle.bank_update.specs.Whole.{IsRoomFor};

    type Plan = Placed;

    ghost standing = { λ b. b };

    ghost planned = { swap_to };

    ghost suits = { IsRoomFor };

    fn count(&self, plan: &Placed) -> u64 {
        self.entries().len() as u64 + plan.table.entries.len() as u64
    }

    fn write(&self, plan: &Placed, place: u64) -> Write {
        self.fits(plan);
        let new = plan.table.entries.len() as u64;
        if place < new {
            return Write {
                slot: plan.start + place as u32,
                before: None,
                entry: entry_at(&plan.table.entries, place as usize),
            };
        }
        let old = self.entries();
        let left = old.len() as u64 + new - 1 - place;
        Write {
            slot: self.start() + left as u32,
            before: entry_at(old, left as usize),
            entry: None,
        }
    }

    fn puts(&self, plan: &Placed, slot: u32) -> bool {
        self.fits(plan);
        plan.has(slot)
    }

    fn name(&self, decision: u32) -> &str {
        match &self.placed {
            Some(placed) => placed.table.names.name(decision),
            None => "miss",
        }
    }

    fn new_name<'a>(&self, plan: &'a Placed, decision: u32) -> &'a str {
        let _slots = self.slots;
        plan.table.names.name(decision)
    }

    fn settle(&mut self, plan: Placed) {
        self.placed = Some(plan);
    }
}

/// The entry at a place, counted from 0, if there is one.
fn entry_at(entries: &[Entry], place: usize) -> Option<Entry>
    ensures { result ≡ slice_get entries.now place }
{
    entries.get(place).copied()
}
