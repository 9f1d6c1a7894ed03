//! Running an editing session: each command takes its turn, and its line is written.
ghost use Rattle.std.specs.Prelude.{◌≡◌, ◌≤◌, ◌<◌, ◌+◌, [], length, All, IfOk, IsErrOf, IsTrue, OnErr};
ghost use Rattle.std.specs.String.{string_bytes};
ghost use Rattle.razor_limits.specs.Counts.{Rose};
ghost use Rattle.razor_base.specs.Headline.Outcomes.{Extends};
ghost use Rattle.razor_base.specs.Output.{Appends};
ghost use Rattle.razor_limits.specs.declared.limits.TheConstants.{MOST_ENTRIES};
ghost use Rattle.field_boxes.specs.Names.{is_decision_word};
ghost use Rattle.field_boxes.specs.FilterRules.{IsFilterRule};
ghost use Rattle.bank_update.specs.Driven.{AreWritesOf, UnlessWriteFault};
ghost use Rattle.bank_update.specs.declared.drive.DriveError.TheVariants as errors;
ghost use Rattle.edit_session.specs.Lists.{rule_named};
ghost use Rattle.edit_session.specs.SessionEnds.{IsLeft, SessionOutcome, TakesTurn, adds_of};
ghost use Rattle.edit_session.specs.SessionRuns.{IsTriedSessionRun};
ghost use Rattle.edit_session.specs.SessionText.{Add, Commit, is_add};
ghost use Rattle.edit_session.specs.SessionViews.{IsCommand, event_of};

use crate::editor::Editor;
use crate::line::{write_added, write_committed, write_taken_out};
use crate::session::{Session, SessionCommand};
use crate::way::Replaced;
use bank_update::{DriveError, write_name, write_stage, write_step};
use field_boxes::Rule;
use razor_base::{Failed, Memory, Pending, Sink};
use std::alloc::Global;
use tcam_sim::Device;

/// Adds the rule and writes the line. Where memory is refused no rule is added, and the name may be there.
fn add<K: Sink, V: Device, T: Replaced>(
    place: u32,
    rule: &Rule,
    name: &str,
    editor: &mut Editor<'_, V, T>,
    pending: &mut Pending,
    out: &mut K,
) -> Result<Result<(), Failed>, Memory>
    requires rule { IsFilterRule rule.now }
    requires word { IsTrue (is_decision_word name.now) }
    requires room { length editor.old.session.list.names < MOST_ENTRIES }
    requires nothing { pending.old ≡ [] }
    ensures turn { IfOk result (λ written. TakesTurn K.written K.faults out.old out.new editor.old.session editor.new.session (V.faults editor.old.device) (V.faults editor.new.device) (V.tries editor.old.device) (V.tries editor.new.device) (Add place (rule_named name.now rule.now)) written) }
    ensures none { pending.new ≡ [] }
    ensures refused { OnErr result (IsLeft (Add place (rule_named name.now rule.now)) editor.old editor.new × (out.new ≡ out.old)) }
{
    write_added(pending, out, editor.add(place, rule, name))
}

/// Commits the list and writes the line. Where memory is refused nothing is done.
fn commit<K: Sink, V: Device, T: Replaced>(
    editor: &mut Editor<'_, V, T>,
    pending: &mut Pending,
    out: &mut K,
) -> Result<Result<(), Failed>, Memory>
    requires { pending.old ≡ [] }
    ensures turn { IfOk result (λ written. TakesTurn K.written K.faults out.old out.new editor.old.session editor.new.session (V.faults editor.old.device) (V.faults editor.new.device) (V.tries editor.old.device) (V.tries editor.new.device) Commit written) }
    ensures none { pending.new ≡ [] }
    ensures refused { OnErr result (IsLeft Commit editor.old editor.new × (out.new ≡ out.old)) }
{
    write_committed(pending, out, editor.commit())
}

/// Does the command and writes its line. Where memory is refused it isn't done; the name of a rule that was to be
/// added may be there.
fn take_turn<K: Sink, V: Device, T: Replaced>(
    command: &SessionCommand,
    editor: &mut Editor<'_, V, T>,
    pending: &mut Pending,
    out: &mut K,
) -> Result<Result<(), Failed>, Memory>
    requires good { IsCommand command.now }
    requires room { IsTrue (is_add (event_of command.now)) → length editor.old.session.list.names < MOST_ENTRIES }
    requires nothing { pending.old ≡ [] }
    ensures turn { IfOk result (λ written. TakesTurn K.written K.faults out.old out.new editor.old.session editor.new.session (V.faults editor.old.device) (V.faults editor.new.device) (V.tries editor.old.device) (V.tries editor.new.device) (event_of command.now) written) }
    ensures none { pending.new ≡ [] }
    ensures refused { OnErr result (IsLeft (event_of command.now) editor.old editor.new × (out.new ≡ out.old)) }
{
    match command {
        SessionCommand::Add { place, rule, name } => {
            add(*place, rule, name.as_str(), editor, pending, out)
        }
        SessionCommand::TakeOut { place } => {
            Ok(write_taken_out(pending, out, editor.take_out(*place)))
        }
        SessionCommand::Commit => commit(editor, pending, out),
        SessionCommand::Step => Ok(write_step(pending, out, editor.step())),
        SessionCommand::Abort => Ok(write_stage(pending, out, editor.abort().ok())),
        SessionCommand::Look { header } => Ok(write_name(pending, out, editor.look(header))),
        SessionCommand::Stage => Ok(write_stage(pending, out, editor.stage())),
    }
}

/// Runs the commands of the session in their order, writes the line of each before the next one is done, and
/// answers how many there are.
///
/// A write that fails stops it with the command done whose line is cut off, and memory that is refused stops it
/// before the command that wanted it; the name of a rule that was to be added may be there then.
#[inline(never)]
pub fn session_on<K: Sink, V: Device, T: Replaced>(
    _alloc: Global,
    session: &Session,
    editor: &mut Editor<'_, V, T>,
    out: &mut K,
) -> Result<u64, DriveError>
    requires { length editor.old.session.list.names + adds_of session.now < MOST_ENTRIES }

    // What ran by the end is a run of the machine, in which no more steps failed than the device's count rose by, and
    // one write was tried by each step while a swap was pending.
    ensures outcome { SessionOutcome (λ stood. IsTriedSessionRun editor.old.session stood (V.faults editor.old.device) (V.faults editor.new.device) (V.tries editor.old.device) (V.tries editor.new.device))
        (Appends (K.written out.old) (K.written out.new)) editor.new.session session.now result }
    ensures counts { V.faults editor.old.device ≤ V.faults editor.new.device }

    // A fault comes only where its count rose, and the count doesn't fall.
    ensures write_fault { IsErrOf result errors.WriteFault → Rose (K.faults out.old) (K.faults out.new) }
    ensures written { K.faults out.old ≤ K.faults out.new }

    // However else it ends, also out of memory, no write failed; one that failed is the last.
    ensures calm { UnlessWriteFault result (K.faults out.new ≡ K.faults out.old) }
    ensures writes { Extends (K.written out.old) (K.written out.new) (AreWritesOf result) }
{
    let mut pending = Pending::new();
    let commands = session.commands();
    for command in commands {
        take_turn(command, editor, &mut pending, out)??;
    }
    Ok(commands.len() as u64)
}
