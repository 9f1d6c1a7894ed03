//! The lines of an editing session's commands.
ghost use Rattle.std.specs.Prelude.{◌≡◌, [], ◌++◌, IfOk, OnErr, OnOk};
ghost use Rattle.std.specs.Fmt.{decimal};
ghost use Rattle.razor_base.specs.Output.{Writes};
ghost use Rattle.bank_update.specs.Lines.{line_end};
ghost use Rattle.edit_session.specs.Refusals.{IsKnownAdd, IsKnownCommit, IsKnownRefusal};
ghost use Rattle.edit_session.specs.SessionLines.{add_line, commit_line, commit_refusal_line, no_slots_line, take_out_line, too_many_line};
ghost use Rattle.edit_session.specs.declared.refusal.CommitRefusal.TheVariants as commits;
ghost use Rattle.edit_session.specs.declared.refusal.PlaceRefusal.TheVariants as places;

use crate::refusal::{CommitRefusal, NoPlace, PlaceRefusal};
use bank_update::{BeginRefusal, write_begun, write_line};
use razor_base::{Failed, Memory, Part, Pending, Sink};

/// Writes a line of a text and a number.
fn write_number<K: Sink>(
    pending: &mut Pending,
    out: &mut K,
    text: &str,
    number: u32,
) -> Result<(), Failed>
    requires { pending.old ≡ [] }
    ensures whole { Writes K.written K.faults out.old out.new (text.now ++ (decimal number ++ line_end)) result }
    ensures none { pending.new ≡ [] }
{
    let parts = [
        Part::Text(text),
        Part::Number(u128::from(number)),
        Part::Text("\n"),
    ];
    write_line(pending, out, &parts)
}

/// Writes what adding a rule answers. Where that is that memory was refused, nothing is written.
pub(crate) fn write_added<K: Sink>(
    pending: &mut Pending,
    out: &mut K,
    answer: Result<u32, PlaceRefusal>,
) -> Result<Result<(), Failed>, Memory>
    requires { pending.old ≡ [] }
    ensures whole { IfOk result (λ written. Writes K.written K.faults out.old out.new (add_line answer) written) }
    ensures known { OnOk result (IsKnownAdd answer) }
    ensures none { pending.new ≡ [] }
    ensures memory { OnErr result ((answer ≡ Err places.Memory) × (out.new ≡ out.old)) }
{
    match answer {
        Ok(count) => Ok(write_number(pending, out, "rules ", count)),
        Err(PlaceRefusal::NoPlace { count }) => {
            Ok(write_number(pending, out, "no place ", count))
        }
        Err(PlaceRefusal::Full) => Ok(write_line(pending, out, &[Part::Text("list full\n")])),
        Err(PlaceRefusal::Memory) => Err(Memory),
    }
}

/// Writes what taking a rule out answers.
pub(crate) fn write_taken_out<K: Sink>(
    pending: &mut Pending,
    out: &mut K,
    answer: Result<u32, NoPlace>,
) -> Result<(), Failed>
    requires { pending.old ≡ [] }
    ensures whole { Writes K.written K.faults out.old out.new (take_out_line answer) result }
    ensures none { pending.new ≡ [] }
{
    match answer {
        Ok(count) => write_number(pending, out, "rules ", count),
        Err(refusal) => write_number(pending, out, "no place ", refusal.count),
    }
}

/// Writes that the list needs more entries than the limit.
fn write_too_many<K: Sink>(
    pending: &mut Pending,
    out: &mut K,
    needed: u128,
    limit: u32,
) -> Result<(), Failed>
    requires { pending.old ≡ [] }
    ensures whole { Writes K.written K.faults out.old out.new (too_many_line needed limit) result }
    ensures none { pending.new ≡ [] }
{
    let parts = [
        Part::Number(needed),
        Part::Text(" entries needed, limit "),
        Part::Number(u128::from(limit)),
        Part::Text("\n"),
    ];
    write_line(pending, out, &parts)
}

/// Writes how many slots are needed, and how many there are.
fn write_no_slots<K: Sink>(
    pending: &mut Pending,
    out: &mut K,
    needed: u64,
    slots: u32,
) -> Result<(), Failed>
    requires { pending.old ≡ [] }
    ensures whole { Writes K.written K.faults out.old out.new (no_slots_line needed slots) result }
    ensures none { pending.new ≡ [] }
{
    let parts = [
        Part::Text("no room "),
        Part::Number(u128::from(needed)),
        Part::Text(" "),
        Part::Number(u128::from(slots)),
        Part::Text("\n"),
    ];
    write_line(pending, out, &parts)
}

/// Writes why no swap was begun. Where that is that memory was refused, nothing is written.
fn write_commit_refusal<K: Sink>(
    pending: &mut Pending,
    out: &mut K,
    refusal: CommitRefusal,
) -> Result<Result<(), Failed>, Memory>
    requires { pending.old ≡ [] }
    ensures whole { IfOk result (λ written. Writes K.written K.faults out.old out.new (commit_refusal_line refusal) written) }
    ensures known { OnOk result (IsKnownRefusal refusal) }
    ensures none { pending.new ≡ [] }
    ensures memory { OnErr result ((refusal ≡ commits.Memory) × (out.new ≡ out.old)) }
{
    match refusal {
        CommitRefusal::Busy => Ok(write_begun(pending, out, Err(BeginRefusal::Busy))),
        CommitRefusal::TooMany { needed, limit } => Ok(write_too_many(pending, out, needed, limit)),
        CommitRefusal::NoRoom {
            free_above,
            free_below,
            wanted,
        } => {
            let refusal = BeginRefusal::NoRoom {
                free_above,
                free_below,
                wanted,
            };
            Ok(write_begun(pending, out, Err(refusal)))
        }
        CommitRefusal::NoSlots { needed, slots } => Ok(write_no_slots(pending, out, needed, slots)),
        CommitRefusal::Memory => Err(Memory),
    }
}

/// Writes what a commit answers. Where that is that memory was refused, nothing is written.
pub(crate) fn write_committed<K: Sink>(
    pending: &mut Pending,
    out: &mut K,
    answer: Result<u64, CommitRefusal>,
) -> Result<Result<(), Failed>, Memory>
    requires { pending.old ≡ [] }
    ensures whole { IfOk result (λ written. Writes K.written K.faults out.old out.new (commit_line answer) written) }
    ensures known { OnOk result (IsKnownCommit answer) }
    ensures none { pending.new ≡ [] }
    ensures memory { OnErr result ((answer ≡ Err commits.Memory) × (out.new ≡ out.old)) }
{
    match answer {
        Ok(total) => Ok(write_begun(pending, out, Ok(total))),
        Err(refusal) => write_commit_refusal(pending, out, refusal),
    }
}
