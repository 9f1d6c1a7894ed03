//! Running a script: each command takes its turn, and its line is written.
ghost use Rattle.std.specs.Prelude.{◌≡◌, ◌≤◌, [], length, All, IfOk, IsErrOf, OnErr};
ghost use Rattle.razor_limits.specs.Counts.{Rose};
ghost use Rattle.razor_base.specs.Headline.Outcomes.{Extends};
ghost use Rattle.razor_base.specs.Output.{Appends};
ghost use Rattle.bank_update.specs.Commands.{event_of};
ghost use Rattle.bank_update.specs.Driven.{AreWritesOf, Outcome, UnlessWriteFault};
ghost use Rattle.bank_update.specs.Runs.{IsTriedRun};
ghost use Rattle.bank_update.specs.Script.{Begin, IsWithin};
ghost use Rattle.bank_update.specs.Turns.{TakesTurn, without_table};
ghost use Rattle.bank_update.specs.declared.drive.DriveError.TheVariants as errors;

use crate::line::{write_begun, write_name, write_stage, write_step};
use crate::refusal::BeginRefusal;
use crate::script::{Command, Script};
use crate::swapper::Swapper;
use razor_base::{Failed, Memory, Pending, Sink};
use std::alloc::Global;
use tcam_sim::Device;
use ternary_words::Table;
use thiserror::Error;

/// Why running a script stopped.
#[derive(Clone, Copy, Debug, PartialEq, Eq, Error)]
pub enum DriveError {
    /// A write failed; the command whose line it was is done.
    #[error("a write failed")]
    WriteFault,
    /// Memory was refused; the command that wanted it isn't done.
    #[error("memory was refused")]
    Memory,
}

impl From<Failed> for DriveError {
    ghost from_gives = { λ _ e. e ≡ errors.WriteFault };

    fn from(_failed: Failed) -> Self {
        DriveError::WriteFault
    }
}

impl From<Memory> for DriveError {
    ghost from_gives = { λ _ e. e ≡ errors.Memory };

    fn from(_refused: Memory) -> Self {
        DriveError::Memory
    }
}

/// What `begin` answers, without the table that came back.
fn without_table(answer: Result<u64, (Table, BeginRefusal)>) -> Result<u64, BeginRefusal>
    ensures { result ≡ without_table answer }
{
    match answer {
        Ok(total) => Ok(total),
        Err((_table, refusal)) => Err(refusal),
    }
}

/// Begins a swap to a copy of the table with this number, counted from 1, and writes its line.
fn begin<K: Sink, V: Device>(
    alloc: Global,
    number: u32,
    tables: &[Table],
    swapper: &mut Swapper<V>,
    pending: &mut Pending,
    out: &mut K,
) -> Result<Result<(), Failed>, Memory>
    requires within { IsWithin (length tables.now) (Begin number) }
    requires nothing { pending.old ≡ [] }
    ensures turn { IfOk result (λ written. TakesTurn K.written K.faults out.old out.new tables.now swapper.old.state swapper.new.state (V.faults swapper.old.device) (V.faults swapper.new.device) (V.tries swapper.old.device) (V.tries swapper.new.device) (Begin number) written) }
    ensures none { pending.new ≡ [] }
    ensures refused { OnErr result ((swapper.new ≡ swapper.old) × (out.new ≡ out.old)) }
{
    let table = tables[number as usize - 1].copy(alloc)?;
    let answer = without_table(swapper.begin(table));
    Ok(write_begun(pending, out, answer))
}

/// Does the command and writes its line. Where memory is refused it isn't done.
fn take_turn<K: Sink, V: Device>(
    alloc: Global,
    command: Command,
    tables: &[Table],
    swapper: &mut Swapper<V>,
    pending: &mut Pending,
    out: &mut K,
) -> Result<Result<(), Failed>, Memory>
    requires within { IsWithin (length tables.now) (event_of command) }
    requires nothing { pending.old ≡ [] }
    ensures turn { IfOk result (λ written. TakesTurn K.written K.faults out.old out.new tables.now swapper.old.state swapper.new.state (V.faults swapper.old.device) (V.faults swapper.new.device) (V.tries swapper.old.device) (V.tries swapper.new.device) (event_of command) written) }
    ensures none { pending.new ≡ [] }
    ensures refused { OnErr result ((swapper.new ≡ swapper.old) × (out.new ≡ out.old)) }
{
    match command {
        Command::Begin { table } => begin(alloc, table, tables, swapper, pending, out),
        Command::Step => Ok(write_step(pending, out, swapper.step())),
        Command::Abort => Ok(write_stage(pending, out, swapper.abort().ok())),
        Command::Look { header } => Ok(write_name(pending, out, swapper.look(&header))),
        Command::Stage => Ok(write_stage(pending, out, swapper.stage())),
    }
}

/// Runs the commands of the script in their order, writes the line of each before the next one is done, and
/// answers how many there are. `begin K` begins a swap to a copy of the table with that number.
///
/// A write that fails stops it with the command done whose line is cut off, and memory that is refused stops
/// it before the command that wanted a copy. So the swapper stands where the update machine stands after
/// the commands that were done.
#[inline(never)]
pub fn drive_on<K: Sink, V: Device>(
    alloc: Global,
    script: &Script,
    tables: &[Table],
    swapper: &mut Swapper<V>,
    out: &mut K,
) -> Result<u64, DriveError>
    requires { All (IsWithin (length tables.now)) script.now }

    // What ran by the end is a run of the machine, in which no more steps failed than the device's count rose by, and
    // one write was tried by each step while a swap was pending.
    ensures outcome { Outcome (IsTriedRun tables.now swapper.old.state swapper.new.state (V.faults swapper.old.device) (V.faults swapper.new.device) (V.tries swapper.old.device) (V.tries swapper.new.device))
        (Appends (K.written out.old) (K.written out.new)) script.now result }
    ensures counts { V.faults swapper.old.device ≤ V.faults swapper.new.device }

    // A fault comes only where its count rose, and the count doesn't fall.
    ensures write_fault { IsErrOf result errors.WriteFault → Rose (K.faults out.old) (K.faults out.new) }
    ensures written { K.faults out.old ≤ K.faults out.new }

    // However else it ends, also out of memory, no write failed; one that failed is the last.
    ensures calm { UnlessWriteFault result (K.faults out.new ≡ K.faults out.old) }
    ensures writes { Extends (K.written out.old) (K.written out.new) (AreWritesOf result) }
{
    let mut pending = Pending::new();
    for command in &script.commands {
        take_turn(alloc, *command, tables, swapper, &mut pending, out)??;
    }
    Ok(script.commands.len() as u64)
}
