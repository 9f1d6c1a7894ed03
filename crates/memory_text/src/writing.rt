//! Writing the text of a memory, and of a plan.
ghost use Rattle.std.specs.Prelude.{◌≡◌, ◌+◌, ◌^◌, ◌<◌, count_by, is_some, length};
ghost use Rattle.std.specs.List.{flat_map};
ghost use Rattle.std.specs.Option.{option_map};
ghost use Rattle.razor_base.specs.Output.{Puts, Writes};
ghost use Rattle.ternary_words.specs.Views.{entry_of};
ghost use Rattle.memory_text.specs.MemoryText.{first_line, memory_text, plan_text, slot_entry, slot_line, slot_lines, write_line};
ghost use Rattle.memory_text.specs.Views.{memory_of, plan_of, slots_of, write_of, writes_of};

use crate::kind::TextKind;
use crate::memory::SlotMemory;
use crate::plan::SlotPlan;
use bank_update::Put;
use razor_base::{Failed, Part, Pending, Sink, put_parts};
use slot_patch::Names;
use table_text::put_word;
use ternary_words::Entry;

/// Writes the text of the memory, in large pieces and without taking memory.
pub fn write_memory<K: Sink>(memory: &SlotMemory, out: &mut K) -> Result<(), Failed>
    ensures { Writes K.written K.faults out.old out.new (memory_text (memory_of memory.now)) result }
{
    let slots = memory.slots.as_slice();
    let count = count_entries(slots);
    let mut pending = Pending::new();
    put_first_line(
        TextKind::Memory,
        slots.len(),
        memory.width.bits,
        count,
        &mut pending,
        out,
    )?;
    put_slots(slots, &memory.names, &mut pending, out)?;
    pending.flush(out)
}

/// Writes the text of the plan, in large pieces and without taking memory.
pub fn write_plan<K: Sink>(plan: &SlotPlan, out: &mut K) -> Result<(), Failed>
    ensures { Writes K.written K.faults out.old out.new (plan_text (plan_of plan.now)) result }
{
    let writes = plan.writes.as_slice();
    let mut pending = Pending::new();
    put_first_line(
        TextKind::Plan,
        plan.slots as usize,
        plan.width.bits,
        writes.len(),
        &mut pending,
        out,
    )?;
    put_writes(writes, &plan.names, &mut pending, out)?;
    pending.flush(out)
}

/// How many slots hold an entry.
fn count_entries(slots: &[Option<Entry>]) -> usize
    ensures { result ≡ count_by is_some slots.now }
{
    slots.iter().filter(|slot| slot.is_some()).count()
}

/// Puts the first line: how many slots there are, how wide they are, and how many lines follow.
fn put_first_line<K: Sink>(
    kind: TextKind,
    slots: usize,
    width: u16,
    lines: usize,
    pending: &mut Pending,
    out: &mut K,
) -> Result<(), Failed>
    ensures { Puts K.written K.faults out.old out.new pending.old pending.new (first_line kind slots width lines) result }
{
    put_parts(
        pending,
        out,
        &[
            Part::Text(kind.word()),
            Part::Text(" 1 slots "),
            Part::Number(slots as u128),
            Part::Text(" width "),
            Part::Number(u128::from(width)),
            Part::Text(" "),
            Part::Text(kind.lines_word()),
            Part::Text(" "),
            Part::Number(lines as u128),
            Part::Text("\n"),
        ],
    )
}

/// Puts a line for each slot that isn't empty.
fn put_slots<K: Sink>(
    slots: &[Option<Entry>],
    names: &Names,
    pending: &mut Pending,
    out: &mut K,
) -> Result<(), Failed>
    requires { length slots.now < 2 ^ 32 }
    ensures { Puts K.written K.faults out.old out.new pending.old pending.new (slot_lines 0 (slots_of names.now slots.now)) result }
{
    for slot in 0..slots.len() {
        put_slot(slot as u32, &slots[slot], names, pending, out)?;
    }
    Ok(())
}

/// Puts the line of a slot, if it isn't empty.
fn put_slot<K: Sink>(
    slot: u32,
    held: &Option<Entry>,
    names: &Names,
    pending: &mut Pending,
    out: &mut K,
) -> Result<(), Failed>
    ensures { Puts K.written K.faults out.old out.new pending.old pending.new (slot_line slot (option_map (entry_of names.now) held.now)) result }
{
    match held {
        Some(entry) => put_slot_entry(slot, entry, names, pending, out),
        None => put_parts(pending, out, &[]),
    }
}

/// Puts a line for each write.
fn put_writes<K: Sink>(
    writes: &[Put],
    names: &Names,
    pending: &mut Pending,
    out: &mut K,
) -> Result<(), Failed>
    ensures { Puts K.written K.faults out.old out.new pending.old pending.new (flat_map write_line (writes_of names.now writes.now)) result }
{
    for write in writes {
        put_write(write, names, pending, out)?;
    }
    Ok(())
}

/// Puts the line of a write.
fn put_write<K: Sink>(
    write: &Put,
    names: &Names,
    pending: &mut Pending,
    out: &mut K,
) -> Result<(), Failed>
    ensures { Puts K.written K.faults out.old out.new pending.old pending.new (write_line (write_of names.now write.now)) result }
{
    match &write.entry {
        Some(entry) => {
            put_parts(pending, out, &[Part::Text("set ")])?;
            put_slot_entry(write.slot, entry, names, pending, out)
        }
        None => put_parts(
            pending,
            out,
            &[
                Part::Text("clear "),
                Part::Number(u128::from(write.slot) + 1),
                Part::Text("\n"),
            ],
        ),
    }
}

/// Puts the number of a slot, and the entry that it holds.
fn put_slot_entry<K: Sink>(
    slot: u32,
    entry: &Entry,
    names: &Names,
    pending: &mut Pending,
    out: &mut K,
) -> Result<(), Failed>
    ensures { Puts K.written K.faults out.old out.new pending.old pending.new (slot_entry slot (entry_of names.now entry.now)) result }
{
    put_parts(
        pending,
        out,
        &[Part::Number(u128::from(slot) + 1), Part::Text(" ")],
    )?;
    put_word(&entry.word, pending, out)?;
    let name = names.name(entry.decision);
    put_parts(pending, out, &[Part::Text(name), Part::Text("\n")])
}
