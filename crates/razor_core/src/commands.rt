//! What each command does: a file a command, named as it (`gen` is a keyword, so its file is `generate`).
//!
//! A command takes the turns of its inputs, one after another, works on what they come to, and writes. It answers how it
//! ended. The last function of its file does nothing: it is the law that says what status 0 of the command means over
//! bytes, from what the top call promises of the command alone.
ghost use Rattle.std.specs.Prelude.{ℕ, List};
ghost use Rattle.command_words.specs.Commands.{command_seen};
ghost use Rattle.razor_base.specs.Texts.{StaysUnread, left_of};
ghost use Rattle.razor_core.specs.PossibleTexts.{MayBeTexts};
ghost use Rattle.razor_core.specs.Calls.{MakesCalls, names_of};
ghost use Rattle.razor_core.specs.Commands.{meaning};
ghost use Rattle.razor_core.specs.Outside.{seen, IsNoInput};
ghost use Rattle.razor_core.specs.Ending.{Ends};

pub mod apply;
pub mod arrange;
pub mod audit;
pub mod cert;
pub mod check;
pub mod compile;
mod difference;
pub mod drive;
pub mod dump;
pub mod equiv;
pub mod expand;
pub mod generate;
mod made;
mod make;
pub mod merge;
pub mod migrate;
pub mod patch;
pub mod place;
pub mod prove;
pub mod query;
pub mod selfrun;
pub mod session;
pub mod shorten;
pub mod trace;
pub mod trim;
pub mod verify;

use crate::ending::Ending;
use apply::apply_plan;
use audit::audit_list;
use cert::certify;
use check::check_certificate;
use command_words::Command;
use drive::run_script;
use dump::dump_memory;
use equiv::compare_lists;
use generate::draw_list;
use make::make_table;
use merge::merge_table;
use migrate::migrate_table;
use patch::plan_patch;
use place::place_table;
use prove::prove_table;
use query::query_list;
use razor_base::{Desk, Sink};
use selfrun::run_load;
use session::run_session;
use std::alloc::Global;
use trace::answer_trace;
use trim::trim_table;
use verify::verify_table;

/// Does what the command says. Each command is a call of its own, so that no frame holds what two of them want.
pub(crate) fn run<'a, D: Desk, K: Sink>(
    alloc: Global,
    command: &Command<'a>,
    desk: &mut D,
    out: &mut K,
) -> Ending<'a>
    ensures ends { (texts : List ℕ → List ℕ) → MayBeTexts (D.reads desk.new) texts → Ends (meaning (command_seen command.now))
        (seen (left_of D.reads texts) D.faults K.written K.faults desk.old out.old)
        (seen (left_of D.reads texts) D.faults K.written K.faults desk.new out.new)
        result }
    ensures others { (other : List ℕ) → IsNoInput (meaning (command_seen command.now)).inputs other → StaysUnread (D.reads desk.old) (D.reads desk.new) other }
    ensures calls { MakesCalls (meaning (command_seen command.now)).writes (names_of (meaning (command_seen command.now))) (D.reads desk.old) (D.reads desk.new) (K.written out.old) (K.written out.new) result }
{
    match command {
        Command::Make {
            method,
            sizes,
            list,
        } => make_table(alloc, *method, *sizes, list, desk, out),
        Command::Equiv(files) => compare_lists(alloc, *files, desk, out),
        Command::Cert(files) => certify(alloc, *files, desk, out),
        Command::Check(files) => check_certificate(alloc, *files, desk, out),
        Command::Trace(files) => answer_trace(alloc, *files, desk, out),
        Command::Drive(run) => run_script(alloc, run, desk, out),
        Command::Gen(drawing) => draw_list(alloc, *drawing, out),
        Command::Selfrun(drawing) => run_load(alloc, *drawing, out),
        Command::Migrate(file) => migrate_table(alloc, file, desk, out),
        Command::Merge(file) => merge_table(alloc, file, desk, out),
        Command::Audit(file) => audit_list(alloc, file, desk, out),
        Command::Query(question) => query_list(alloc, *question, desk, out),
        Command::Session { terms, files } => run_session(alloc, terms, *files, desk, out),
        Command::Trim(file) => trim_table(alloc, file, desk, out),
        Command::Place { slots, table } => place_table(alloc, *slots, table, desk, out),
        Command::Patch(files) => plan_patch(alloc, *files, desk, out),
        Command::Apply(files) => apply_plan(alloc, *files, desk, out),
        Command::Dump(file) => dump_memory(alloc, file, desk, out),
        Command::Verify(files) => verify_table(alloc, *files, desk, out),
        Command::Prove(files) => prove_table(alloc, *files, desk, out),
    }
}
