//! Reading the text of a memory, and of a plan.
ghost use Rattle.std.specs.Prelude.{◌≡◌, ◌+◌, ◌-◌, ◌^◌, ◌≤◌, ◌<◌, min, length, take, Ok, Err, IfOk, IfSome, IfNone, MatchResult, Some, vec_len};
ghost use Rattle.razor_limits.specs.declared.limits.TheConstants.{MOST_ENTRIES};
ghost use Rattle.table_text.specs.Lines.{lines_of};
ghost use Rattle.memory_text.specs.declared.TheConstants.{MOST_WRITES};
ghost use Rattle.text_lines.specs.Reading.{IsTextRefused};
ghost use Rattle.text_lines.specs.declared.error.TextError.TheVariants.{BadLine};
ghost use Rattle.memory_text.specs.Kept.{AreWithin};
ghost use Rattle.memory_text.specs.Reading.{after_heading, count_differs, counted, memory_in_text, no_heading, plan_in, plan_in_text, writes_in};
ghost use Rattle.memory_text.specs.Views.{draft_of, heading_view, memory_of, plan_of};

use crate::draft::Draft;
use crate::error::{SlotError, SlotReason};
use crate::heading::{Heading, read_heading};
use crate::kind::TextKind;
use crate::line::write_in;
use crate::memory::SlotMemory;
use crate::plan::SlotPlan;
use std::alloc::Global;
use table_text::{TableReason, count_lines, next_line};

/// The plan that the text spells, or its first bad line.
///
/// It goes over the text once, in time linear in its bytes, and takes memory for the writes and the names alone.
pub fn read_plan(alloc: Global, bytes: &[u8]) -> Result<SlotPlan, SlotError>
    ensures { MatchResult result
        (λ plan. plan_in_text bytes.now ≡ Ok (plan_of plan))
        (λ error. IsTextRefused error (plan_in_text bytes.now)) }
{
    read_text(alloc, TextKind::Plan, bytes)
}

/// The memory that the text spells, or its first bad line.
///
/// It goes over the text once, in time linear in its bytes, and takes memory for the slots, the entries and the names.
pub fn read_memory(alloc: Global, bytes: &[u8]) -> Result<SlotMemory, SlotError>
    ensures { MatchResult result
        (λ memory. memory_in_text bytes.now ≡ Ok (memory_of memory))
        (λ error. IsTextRefused error (memory_in_text bytes.now)) }
{
    let plan = match read_text(alloc, TextKind::Memory, bytes) {
        Ok(plan) => plan,
        Err(error) => return Err(error),
    };
    let memory = match SlotMemory::empty(alloc, plan.slots, plan.width) {
        Ok(memory) => memory,
        Err(_) => return Err(SlotError::Memory),
    };
    match memory.after(&plan) {
        Ok(memory) => Ok(memory),
        Err(_) => Err(SlotError::Memory),
    }
}

/// What the text of this kind spells, as a plan.
fn read_text(alloc: Global, kind: TextKind, bytes: &[u8]) -> Result<SlotPlan, SlotError>
    ensures { MatchResult result
        (λ plan. plan_in kind (lines_of bytes.now) ≡ Ok (plan_of plan))
        (λ error. IsTextRefused error (plan_in kind (lines_of bytes.now))) }
{
    let Some((heading, lines)) = first_line(kind, bytes) else {
        return Err(SlotError::BadLine {
            line: 1,
            reason: SlotReason::OfTable(TableReason::FirstLine),
        });
    };
    match read_lines(alloc, kind, &heading, lines) {
        Ok(draft) => Ok(SlotPlan {
            slots: heading.slots,
            width: heading.width,
            writes: draft.writes,
            names: draft.names,
        }),
        Err(error) => Err(error),
    }
}

/// What the first line says, and the lines after it.
fn first_line(kind: TextKind, bytes: &[u8]) -> Option<(Heading, &[u8])>
    ensures some { IfSome result (λ parts. plan_in kind (lines_of bytes.now) ≡ after_heading kind (Some (heading_view parts.0)) (lines_of parts.1.now)) }
    ensures none { IfNone result (plan_in kind (lines_of bytes.now) ≡ no_heading) }
    ensures slots { IfSome result (λ parts. (1 ≤ parts.0.slots) × (parts.0.slots ≤ MOST_ENTRIES)) }
    ensures lines { IfSome result (λ parts. parts.0.lines ≤ MOST_WRITES) }
{
    let (line, ended, lines) = next_line(bytes)?;
    if !ended {
        return None;
    }
    let heading = read_heading(kind, line)?;
    Some((heading, lines))
}

/// The writes of the lines, which must be as many as the first line states.
fn read_lines(
    alloc: Global,
    kind: TextKind,
    heading: &Heading,
    lines: &[u8],
) -> Result<Draft, SlotError>
    requires few { heading.now.lines ≤ MOST_WRITES }
    requires slots { heading.now.slots ≤ MOST_ENTRIES }
    ensures lines { MatchResult result
        (λ draft. counted kind (heading_view heading.now) (length (lines_of lines.now)) (writes_in kind heading.now.slots 2 0 (take heading.now.lines (lines_of lines.now)))
        ≡ Ok (record { slots = heading.now.slots; width = heading.now.width.bits; writes = draft_of draft }))
        (λ error. IsTextRefused error (counted kind (heading_view heading.now) (length (lines_of lines.now)) (writes_in kind heading.now.slots 2 0 (take heading.now.lines (lines_of lines.now))))) }
    ensures within { IfOk result (λ draft. AreWithin heading.now.slots draft.writes.items) }
    ensures few { IfOk result (λ draft. vec_len draft.writes ≤ heading.now.lines) }
{
    let stated = heading.lines;
    let mut draft = Draft::new(alloc);
    let mut from = 0u32;
    let mut rest = lines;
    for place in 0..stated {
        let Some((line, ended, after)) = next_line(rest) else {
            return Err(count_differs(kind, stated, u64::from(place)));
        };
        let write = match write_in(kind, heading.slots, from, line, ended) {
            Ok(write) => write,
            Err(reason) => {
                return Err(SlotError::BadLine {
                    line: u64::from(place) + 2,
                    reason,
                });
            }
        };
        from = write.slot + 1;
        draft = match draft.with(write) {
            Ok(draft) => draft,
            Err(_) => return Err(SlotError::Memory),
        };
        rest = after;
    }
    let more = count_lines(rest);
    if more > 0 {
        return Err(count_differs(kind, stated, u64::from(stated) + more));
    }
    Ok(draft)
}

/// Another number of lines was found than the first line states.
fn count_differs(kind: TextKind, stated: u32, found: u64) -> SlotError
    requires { found < 2 ^ 64 - 2 }
    ensures { result ≡ BadLine (min stated found + 2) (count_differs kind stated found) }
{
    SlotError::BadLine {
        line: u64::from(stated).min(found) + 2,
        reason: reason_of_count(kind, stated, found),
    }
}

/// What is wrong where another number of lines was found.
fn reason_of_count(kind: TextKind, stated: u32, found: u64) -> SlotReason
    ensures { result ≡ count_differs kind stated found }
{
    match kind {
        TextKind::Memory => SlotReason::OfTable(TableReason::Count { stated, found }),
        TextKind::Plan => SlotReason::Writes { stated, found },
    }
}
