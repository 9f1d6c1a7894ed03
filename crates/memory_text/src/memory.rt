//! Memories: what each slot holds.
ghost use Rattle.std.specs.Prelude.{◌≤◌, length, vec_len};
ghost use Rattle.razor_limits.specs.declared.limits.TheConstants.{MOST_ENTRIES};
ghost use Rattle.memory_text.specs.Kept.{AreNumbered, AreSpelled};

use crate::naming::number_of;
use crate::plan::SlotPlan;
use bank_update::Put;
use razor_base::Memory;
use slot_patch::Names;
use std::alloc::Global;
use ternary_words::{Entry, SlotWidth, Word};

/// A memory of 1 to 262,144 slots of the width, each empty or with an entry, and the names of the
/// decisions.
#[derive(Drop)]
pub struct SlotMemory {
    pub width: SlotWidth,
    pub slots: Vec<Option<Entry>>,
    pub names: Names,
    pub ghost some: { 1 ≤ vec_len slots },
    pub ghost few: { vec_len slots ≤ MOST_ENTRIES },
    pub ghost named: { AreSpelled names },
    pub ghost numbered: { AreNumbered (length names) slots.items },
}

impl SlotMemory {
    ghost use Rattle.std.specs.Prelude.{◌≡◌, ◌≤◌, ◌<◌, Some, None, replicate, set, vec_len, IfOk, IsTrue, OnOk};
    ghost use Rattle.razor_limits.specs.declared.limits.TheConstants.{MOST_ENTRIES};
    ghost use Rattle.std.specs.Option.{option_map};
    ghost use Rattle.ternary_words.specs.Views.{entry_of, word_of};
    ghost use Rattle.table_text.specs.Names.{decided, is_decision};
    ghost use Rattle.memory_text.specs.Kept.{AreSpelled};
    ghost use Rattle.memory_text.specs.Memory.{after};
    ghost use Rattle.memory_text.specs.Views.{memory_of, plan_of};

    /// So many slots, all of them empty.
    pub(crate) fn empty(alloc: Global, slots: u32, width: SlotWidth) -> Result<Self, Memory>
        requires some { 1 ≤ slots }
        requires few { slots ≤ MOST_ENTRIES }
        ensures empty { IfOk result (λ memory. memory_of memory ≡ record { width = width.bits; slots = replicate slots None }) }
        ensures many { IfOk result (λ memory. vec_len memory.slots ≡ slots) }
    {
        Ok(SlotMemory {
            width,
            slots: vec![in alloc; None; slots as usize]?,
            names: Names::new(alloc),
        })
    }

    /// Makes the slot hold an entry, and puts its decision among the names.
    pub(crate) fn set(&mut self, slot: u32, word: Word, decision: &str) -> Result<(), Memory>
        requires within { slot < vec_len self.old.slots }
        requires named { IsTrue (is_decision decision.now) }
        ensures set { OnOk result ((memory_of self.new).slots ≡ set (memory_of self.old).slots slot (Some (record { word = word_of word; decision = decided decision.now }))) }
        ensures width { self.new.width ≡ self.old.width }
        ensures many { vec_len self.new.slots ≡ vec_len self.old.slots }
    {
        let decision = number_of(&mut self.names, decision)?;
        self.slots[slot as usize] = Some(Entry { word, decision });
        Ok(())
    }

    /// Empties the slot.
    pub(crate) fn clear(&mut self, slot: u32)
        requires { slot < vec_len self.old.slots }
        ensures cleared { (memory_of self.new).slots ≡ set (memory_of self.old).slots slot None }
        ensures width { self.new.width ≡ self.old.width }
        ensures many { vec_len self.new.slots ≡ vec_len self.old.slots }
    {
        self.slots[slot as usize] = None;
    }

    /// Makes the slot of the write hold what the write says, by names of its own.
    fn write(&mut self, write: &Put, names: &Names) -> Result<(), Memory>
        requires within { write.now.slot < vec_len self.old.slots }
        requires spelled { AreSpelled names.now }
        ensures set { OnOk result ((memory_of self.new).slots ≡ set (memory_of self.old).slots write.now.slot (option_map (entry_of names.now) write.now.entry)) }
        ensures width { self.new.width ≡ self.old.width }
        ensures many { vec_len self.new.slots ≡ vec_len self.old.slots }
    {
        match write.entry {
            Some(entry) => self.set(write.slot, entry.word, names.name(entry.decision)),
            None => {
                self.clear(write.slot);
                Ok(())
            }
        }
    }

    /// The memory after the plan's writes.
    pub fn after(self, plan: &SlotPlan) -> Result<Self, Memory>
        requires { plan.now.slots ≡ vec_len self.slots }
        ensures after { IfOk result (λ memory. memory_of memory ≡ record { width = self.width.bits; slots = after (memory_of self).slots (plan_of plan.now).writes }) }
    {
        let mut memory = self;
        for write in &plan.writes {
            memory.write(write, &plan.names)?;
        }
        Ok(memory)
    }
}
