//! The write that a line spells.
ghost use Rattle.std.specs.Prelude.{◌≡◌, ◌<◌, Ok, Err, IfOk, IfSome, MatchResult};
ghost use Rattle.memory_text.specs.Heading.{slot_numbered};
ghost use Rattle.memory_text.specs.Lines.{emptied, entry_write, first_word, from_slot, plan_write, write_in};
ghost use Rattle.memory_text.specs.Views.{spelled_of};
ghost use Rattle.table_text.specs.EntryViews.{line_of};

use crate::error::SlotReason;
use crate::heading::slot_numbered;
use crate::kind::TextKind;
use table_text::{Spelled, TableReason, columns_entry};
use text_lines::split_once;

/// A slot, and what it is made to hold, as a line spells it.
#[derive(Clone, Copy)]
pub(crate) struct SpelledWrite<'a> {
    pub(crate) slot: u32,
    pub(crate) entry: Option<Spelled<'a>>,
}

/// What stands in front of the first space, and what stands behind it: nothing where there is no space.
fn first_word(text: &[u8]) -> (&[u8], &[u8])
    ensures { (result.0.now, result.1.now) ≡ first_word text.now }
{
    match split_once(text, b' ') {
        Some((word, rest)) => (word, rest),
        None => (text, &[]),
    }
}

/// The slot whose number the text writes, unless it is in front of this one.
fn slot_from(text: &[u8], slots: u32, from: u32) -> Option<u32>
    ensures slot { result ≡ from_slot from (slot_numbered slots text.now) }
    ensures within { IfSome result (λ slot. slot < slots) }
{
    let slot = slot_numbered(text, slots)?;
    if from <= slot { Some(slot) } else { None }
}

/// The slot and the entry that a text spells, unless the slot is in front of this one.
#[tactic(auto, unfolding(crate::specs::Lines::entry_write))]
fn entry_write(
    text: &[u8],
    ended: bool,
    slots: u32,
    from: u32,
) -> Result<SpelledWrite<'_>, SlotReason>
    ensures write { MatchResult result
        (λ write. entry_write slots from ended text.now ≡ Ok (spelled_of write))
        (λ reason. entry_write slots from ended text.now ≡ Err reason) }
    ensures within { IfOk result (λ write. write.slot < slots) }
{
    let (number, columns) = first_word(text);
    let Some(slot) = slot_from(number, slots, from) else {
        return Err(SlotReason::Slot);
    };
    match columns_entry(columns, ended) {
        Ok(entry) => Ok(SpelledWrite {
            slot,
            entry: Some(entry),
        }),
        Err(reason) => Err(SlotReason::OfTable(reason)),
    }
}

/// The slot that is made to hold nothing.
fn emptied(text: &[u8], ended: bool, slots: u32) -> Result<SpelledWrite<'_>, SlotReason>
    ensures write { MatchResult result
        (λ write. emptied ended (slot_numbered slots text.now) ≡ Ok (spelled_of write))
        (λ reason. emptied ended (slot_numbered slots text.now) ≡ Err reason) }
    ensures within { IfOk result (λ write. write.slot < slots) }
{
    let Some(slot) = slot_numbered(text, slots) else {
        return Err(SlotReason::Slot);
    };
    if !ended {
        return Err(SlotReason::OfTable(TableReason::Decision));
    }
    Ok(SpelledWrite { slot, entry: None })
}

/// The write that a line of a plan's text spells.
#[tactic(auto, unfolding(crate::specs::Lines::plan_write))]
fn plan_write(text: &[u8], ended: bool, slots: u32) -> Result<SpelledWrite<'_>, SlotReason>
    ensures write { MatchResult result
        (λ write. plan_write slots ended text.now ≡ Ok (spelled_of write))
        (λ reason. plan_write slots ended text.now ≡ Err reason) }
    ensures within { IfOk result (λ write. write.slot < slots) }
{
    let (word, rest) = first_word(text);
    if word == b"set".as_slice() {
        return entry_write(rest, ended, slots, 0);
    }
    if word == b"clear".as_slice() {
        return emptied(rest, ended, slots);
    }
    Err(SlotReason::UnknownWrite)
}

/// The write that a line spells, in a memory's text to a slot that isn't in front of this one, or the first reason why the
/// line is bad.
pub(crate) fn write_in(
    kind: TextKind,
    slots: u32,
    from: u32,
    line: &[u8],
    ended: bool,
) -> Result<SpelledWrite<'_>, SlotReason>
    ensures write { MatchResult result
        (λ write. write_in kind slots from (line_of line.now ended) ≡ Ok (spelled_of write))
        (λ reason. write_in kind slots from (line_of line.now ended) ≡ Err reason) }
    ensures within { IfOk result (λ write. write.slot < slots) }
{
    match kind {
        TextKind::Memory => entry_write(line, ended, slots, from),
        TextKind::Plan => plan_write(line, ended, slots),
    }
}
