//! Spreading a table over the slots of a memory.
ghost use Rattle.std.specs.Prelude.{◌≡◌, ◌≤◌, ◌<◌, vec_len, IfOk};
ghost use Rattle.razor_limits.specs.declared.limits.TheConstants.{MOST_ENTRIES};
ghost use Rattle.ternary_words.specs.Views.{table_of};
ghost use Rattle.memory_text.specs.Kept.{AreSpelled};
ghost use Rattle.memory_text.specs.Spreading.{even_slot, spread};
ghost use Rattle.memory_text.specs.Views.{memory_of};

use crate::memory::SlotMemory;
use razor_base::Memory;
use std::alloc::Global;
use ternary_words::Table;

/// A memory of so many slots in which the entries of the table stand in order, evenly.
pub fn spread(alloc: Global, slots: u32, table: &Table) -> Result<SlotMemory, Memory>
    requires some { 1 ≤ slots }
    requires few { slots ≤ MOST_ENTRIES }
    requires room { vec_len table.now.entries ≤ slots }
    requires spelled { AreSpelled table.now.names }
    ensures { IfOk result (λ memory. memory_of memory ≡ spread slots (table_of table.now)) }
{
    let mut memory = SlotMemory::empty(alloc, slots, table.slot)?;
    let many = table.entries.len() as u32;
    for place in 0..many {
        let entry = table.entries[place as usize];
        let name = table.names.name(entry.decision);
        memory.set(even_slot(slots, many, place), entry.word, name)?;
    }
    Ok(memory)
}

/// The slot of an entry, of so many, in so many slots, where all count from 0.
fn even_slot(slots: u32, many: u32, place: u32) -> u32
    requires within { place < many }
    requires room { many ≤ slots }
    requires few { slots ≤ MOST_ENTRIES }
    ensures slot { result ≡ even_slot slots many place }
    ensures within { result < slots }
{
    let ahead = (2 * u64::from(place) + 1) * u64::from(slots);
    (ahead / (2 * u64::from(many))) as u32
}
