//! The lines that a run of a script prints, one for each command.
ghost use Rattle.std.specs.Prelude.{◌≡◌, [], ◌++◌, codes, if◌then◌else◌};
ghost use Rattle.razor_base.specs.Output.{Writes};
ghost use Rattle.razor_base.specs.Parts.{parts_text};
ghost use Rattle.bank_update.specs.Lines.{begin_line, begin_refusal_line, begun_line, line_end, no_room_line, stage_line, stage_or_idle, step_line, step_refusal_line};

use crate::refusal::{BeginRefusal, StepRefusal};
use crate::stage::Stage;
use razor_base::{Failed, Part, Pending, Sink, put_parts};

/// Writes a line whole, where nothing waits.
pub fn write_line<K: Sink>(
    pending: &mut Pending,
    out: &mut K,
    parts: &[Part<'_>],
) -> Result<(), Failed>
    requires { pending.old ≡ [] }
    ensures whole { Writes K.written K.faults out.old out.new (parts_text parts.now) result }
    ensures none { pending.new ≡ [] }
{
    put_parts(pending, out, parts)?;
    pending.flush(out)
}

/// The end of the line of a stage.
fn stage_end(back: bool) -> &'static str
    ensures { result.now ≡ (if back then codes " back" else []) ++ line_end }
{
    if back { " back\n" } else { "\n" }
}

/// Writes how many writes are done, of how many, and whether the swap goes back.
fn write_some_stage<K: Sink>(pending: &mut Pending, out: &mut K, stage: Stage) -> Result<(), Failed>
    requires { pending.old ≡ [] }
    ensures whole { Writes K.written K.faults out.old out.new (stage_line stage.done stage.total stage.back) result }
    ensures none { pending.new ≡ [] }
{
    let parts = [
        Part::Text("stage "),
        Part::Number(u128::from(stage.done)),
        Part::Text(" of "),
        Part::Number(u128::from(stage.total)),
        Part::Text(stage_end(stage.back)),
    ];
    write_line(pending, out, &parts)
}

/// Writes the stage of a swap, or that none is pending.
pub fn write_stage<K: Sink>(
    pending: &mut Pending,
    out: &mut K,
    stage: Option<Stage>,
) -> Result<(), Failed>
    requires { pending.old ≡ [] }
    ensures whole { Writes K.written K.faults out.old out.new (stage_or_idle stage) result }
    ensures none { pending.new ≡ [] }
{
    match stage {
        Some(stage) => write_some_stage(pending, out, stage),
        None => write_line(pending, out, &[Part::Text("idle\n")]),
    }
}

/// Writes why a step wasn't taken.
fn write_step_refusal<K: Sink>(
    pending: &mut Pending,
    out: &mut K,
    refusal: StepRefusal,
) -> Result<(), Failed>
    requires { pending.old ≡ [] }
    ensures whole { Writes K.written K.faults out.old out.new (step_refusal_line refusal) result }
    ensures none { pending.new ≡ [] }
{
    match refusal {
        StepRefusal::Idle => write_line(pending, out, &[Part::Text("idle\n")]),
        StepRefusal::DeviceFault => write_line(pending, out, &[Part::Text("device fault\n")]),
    }
}

/// Writes what a step answers.
pub fn write_step<K: Sink>(
    pending: &mut Pending,
    out: &mut K,
    answer: Result<Stage, StepRefusal>,
) -> Result<(), Failed>
    requires { pending.old ≡ [] }
    ensures whole { Writes K.written K.faults out.old out.new (step_line answer) result }
    ensures none { pending.new ≡ [] }
{
    match answer {
        Ok(stage) => write_some_stage(pending, out, stage),
        Err(refusal) => write_step_refusal(pending, out, refusal),
    }
}

/// Writes how many slots are free above the settled table and below it, and how many are wanted.
fn write_no_room<K: Sink>(
    pending: &mut Pending,
    out: &mut K,
    above: u32,
    below: u32,
    wanted: u32,
) -> Result<(), Failed>
    requires { pending.old ≡ [] }
    ensures whole { Writes K.written K.faults out.old out.new (no_room_line above below wanted) result }
    ensures none { pending.new ≡ [] }
{
    let parts = [
        Part::Text("no room "),
        Part::Number(u128::from(above)),
        Part::Text(" "),
        Part::Number(u128::from(below)),
        Part::Text(" "),
        Part::Number(u128::from(wanted)),
        Part::Text("\n"),
    ];
    write_line(pending, out, &parts)
}

/// Writes why no swap begins.
fn write_begin_refusal<K: Sink>(
    pending: &mut Pending,
    out: &mut K,
    refusal: BeginRefusal,
) -> Result<(), Failed>
    requires { pending.old ≡ [] }
    ensures whole { Writes K.written K.faults out.old out.new (begin_refusal_line refusal) result }
    ensures none { pending.new ≡ [] }
{
    match refusal {
        BeginRefusal::Busy => write_line(pending, out, &[Part::Text("busy\n")]),
        BeginRefusal::NoRoom {
            free_above,
            free_below,
            wanted,
        } => write_no_room(pending, out, free_above, free_below, wanted),
    }
}

/// Writes how many writes a swap has.
fn write_total<K: Sink>(pending: &mut Pending, out: &mut K, total: u64) -> Result<(), Failed>
    requires { pending.old ≡ [] }
    ensures whole { Writes K.written K.faults out.old out.new (begun_line total) result }
    ensures none { pending.new ≡ [] }
{
    let parts = [
        Part::Text("begun "),
        Part::Number(u128::from(total)),
        Part::Text("\n"),
    ];
    write_line(pending, out, &parts)
}

/// Writes how many writes a swap has that begins, or why none does.
pub fn write_begun<K: Sink>(
    pending: &mut Pending,
    out: &mut K,
    answer: Result<u64, BeginRefusal>,
) -> Result<(), Failed>
    requires { pending.old ≡ [] }
    ensures whole { Writes K.written K.faults out.old out.new (begin_line answer) result }
    ensures none { pending.new ≡ [] }
{
    match answer {
        Ok(total) => write_total(pending, out, total),
        Err(refusal) => write_begin_refusal(pending, out, refusal),
    }
}

/// Writes the name of a decision.
pub fn write_name<K: Sink>(pending: &mut Pending, out: &mut K, name: &str) -> Result<(), Failed>
    requires { pending.old ≡ [] }
    ensures whole { Writes K.written K.faults out.old out.new (name.now ++ line_end) result }
    ensures none { pending.new ≡ [] }
{
    write_line(pending, out, &[Part::Text(name), Part::Text("\n")])
}
