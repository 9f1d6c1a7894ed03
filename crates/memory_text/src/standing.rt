//! The table that stands in the slots of a memory.
ghost use Rattle.std.specs.Prelude.{◌≡◌, ◌≤◌, ◌<◌, ◌+◌, ◌++◌, vec_len, IfOk};
ghost use Rattle.std.specs.Option.{option_map, option_to_list};
ghost use Rattle.razor_limits.specs.declared.limits.TheConstants.{MOST_ENTRIES};
ghost use Rattle.ternary_words.specs.Views.{entry_of, table_of};
ghost use Rattle.table_text.specs.EntriesViews.{entries_view};
ghost use Rattle.memory_text.specs.Kept.{AreSpelled};
ghost use Rattle.memory_text.specs.Memory.{table_in};
ghost use Rattle.memory_text.specs.Views.{memory_of};

use crate::memory::SlotMemory;
use razor_base::Memory;
use slot_patch::Names;
use std::alloc::Global;
use table_text::Entries;
use ternary_words::{Entry, Table};

/// The table of the memory: its entries by rising slot.
pub fn table_in(alloc: Global, memory: &SlotMemory) -> Result<Table, Memory>
    ensures table { IfOk result (λ table. table_of table ≡ table_in (memory_of memory.now)) }
    ensures spelled { IfOk result (λ table. AreSpelled table.names) }
{
    let mut entries = Entries::new(alloc);
    for held in &memory.slots {
        entries = with_held(entries, held, &memory.names)?;
    }
    let composed = entries.entries.len() as u32;
    let Entries { entries, names } = entries;
    Ok(Table {
        slot: memory.width,
        composed,
        entries,
        names,
    })
}

/// The entries, and behind them what a slot holds.
fn with_held(entries: Entries, held: &Option<Entry>, names: &Names) -> Result<Entries, Memory>
    requires room { vec_len entries.entries < MOST_ENTRIES }
    requires spelled { AreSpelled names.now }
    ensures entries { IfOk result (λ new. entries_view new ≡ entries_view entries ++ option_to_list (option_map (entry_of names.now) held.now)) }
    ensures one_more { IfOk result (λ new. vec_len new.entries ≤ vec_len entries.entries + 1) }
{
    match held {
        Some(entry) => entries.with_entry(entry.word, names.name(entry.decision)),
        None => Ok(entries),
    }
}
