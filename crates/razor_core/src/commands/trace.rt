//! `trace`: what a table answers to the headers of a trace.
ghost use Rattle.std.specs.Prelude.{◌≢◌, ◌≡◌, ℕ, List, [], ◌∷◌};
ghost use Rattle.razor_base.specs.Texts.{StaysUnread, left_of};
ghost use Rattle.razor_core.specs.PossibleTexts.{MayBeTexts};
ghost use Rattle.razor_core.specs.Outside.{seen, Adds, Outside};
ghost use Rattle.razor_core.specs.Ending.{Ends};
ghost use Rattle.razor_core.specs.Commands.Trace.{IsEndOfRun, tracing, IsAnswered};
ghost use Rattle.razor_core.specs.Promise.{KeepsPromise};
ghost use Rattle.razor_core.specs.Calls.{MakesCalls};
ghost use Rattle.razor_core.specs.Meaning.{in_turn};

use crate::ending::{Ending, Summary};
use crate::line_reason::LineReason;
use crate::taking::take;
use crate::texts::TableText;
use bank_index::IndexedBank;
use command_words::TwoFiles;
use razor_base::limits::MOST_TRACE_BYTES;
use razor_base::{Desk, Sink};
use std::alloc::Global;
use trace_run::laws::{loaded_entries_answer, loaded_entries_have_names};
use trace_run::{TraceError, run};

/// The ending of a command whose run over the trace ended so.
fn run_ended(file: &str, ended: Result<u64, TraceError>) -> Ending<'_>
    ensures { IsEndOfRun file.now ended result }
{
    match ended {
        Ok(_) => Ending::Done(Summary::Nothing),
        Err(TraceError::BadLine { line, reason }) => Ending::BadLine {
            file,
            line,
            reason: LineReason::OfTrace(reason),
        },
        Err(TraceError::ReadFault) => Ending::ReadFault { file },
        Err(TraceError::TooLong) => Ending::TooLong {
            file,
            limit: MOST_TRACE_BYTES,
        },
        Err(TraceError::WriteFault) => Ending::WriteFault,
        Err(TraceError::Memory) => Ending::Memory,
    }
}

/// Writes what the table answers to each header of the trace.
#[inline(never)]
pub(crate) fn answer_trace<'a, D: Desk, K: Sink>(
    alloc: Global,
    files: TwoFiles<'a>,
    desk: &mut D,
    out: &mut K,
) -> Ending<'a>
    ensures ends { (texts : List ℕ → List ℕ) → MayBeTexts (D.reads desk.new) texts → Ends (tracing files.entry.first.now files.entry.second.now)
        (seen (left_of D.reads texts) D.faults K.written K.faults desk.old out.old)
        (seen (left_of D.reads texts) D.faults K.written K.faults desk.new out.new)
        result }
    ensures others { (other : List ℕ) → other ≢ files.entry.first.now → other ≢ files.entry.second.now → StaysUnread (D.reads desk.old) (D.reads desk.new) other }
    ensures calls { MakesCalls in_turn (files.entry.first.now ∷ files.entry.second.now ∷ []) (D.reads desk.old) (D.reads desk.new) (K.written out.old) (K.written out.new) result }
{
    let table = match take(alloc, &TableText, files.first, desk) {
        Ok(table) => table,
        Err(ending) => return ending,
    };
    let bank = match IndexedBank::loaded(alloc, &table) {
        Ok(bank) => bank,
        Err(_) => return Ending::Memory,
    };
    loaded_entries_answer();
    loaded_entries_have_names();
    let ended = run(alloc, &bank, &table.names, desk, files.second, out);
    run_ended(files.second, ended)
}

/// What `trace` has written is what the table answers to each header in order.
pub fn traces_are_answered_by_the_table()
    ensures { (before after : Outside) (line : List ℕ) (table trace first second : List ℕ) →
        KeepsPromise (tracing table trace) before after line 0 → before.remaining table ≡ first → before.remaining trace ≡ second →
        Adds before after (IsAnswered first second) }
{}
