//! `drive`: a script of updates, run over tables in a memory.
ghost use Rattle.std.specs.Prelude.{◌≡◌, ◌≢◌, ◌≤◌, ◌<◌, ◌++◌, ◌∷◌, ℕ, List, IfErr, IsTrue, MatchResult, OnOk, length, map};
ghost use Rattle.razor_base.specs.Headline.Outcomes.{Extends};
ghost use Rattle.razor_base.specs.Turns.{AreWholeTurns};
ghost use Rattle.command_words.specs.Commands.{Drive};
ghost use Rattle.command_words.specs.Files.{all_differ, script_and_tables};
ghost use Rattle.command_words.specs.PlainWords.{plain_seen};
ghost use Rattle.razor_base.specs.Texts.{StaysUnread, left_of};
ghost use Rattle.razor_core.specs.PossibleTexts.{MayBeTexts};
ghost use Rattle.razor_core.specs.Commands.{meaning};
ghost use Rattle.razor_core.specs.Outside.{seen, IsNoInput, Adds, Outside};
ghost use Rattle.razor_core.specs.Ending.{Ends};
ghost use Rattle.razor_core.specs.Commands.Drive.{IsEndOfDrive, swapping, IsDriven};
ghost use Rattle.razor_core.specs.Tables.{AreAdded, IsNone, FailsAmong};
ghost use Rattle.razor_core.specs.Promise.{KeepsPromise};
ghost use Rattle.razor_core.specs.Calls.{EndsAmong, MakesCalls, names_of};
ghost use Rattle.razor_core.specs.Meaning.{by_lines};

use crate::ending::{Ending, Summary};
use crate::taking::take;
use crate::texts::{ScriptText, TableText};
use bank_update::laws::a_run_without_faults_is_the_session;
use bank_update::{DriveError, Swapper, drive_on};
use command_words::{ScriptRun, Slots};
use razor_base::{Desk, Sink};
use std::alloc::Global;
use tcam_sim::Bank;
use ternary_words::Table;

/// Takes the turns of the tables: puts them behind the others, or says how the command ends.
fn take_tables<'a, D: Desk>(
    alloc: Global,
    files: &[&'a str],
    desk: &mut D,
    tables: &mut Vec<Table>,
) -> Result<(), Ending<'a>>
    requires { IsTrue (all_differ (map (λ word. word.now) files.now)) }
    ensures taken { (texts : List ℕ → List ℕ) → MayBeTexts (D.reads desk.new) texts → OnOk result (AreAdded (map (λ word. word.now) files.now) (left_of D.reads texts desk.old) (left_of D.reads texts desk.new) tables.old.items tables.new.items) }
    ensures ended { (texts : List ℕ → List ℕ) → MayBeTexts (D.reads desk.new) texts → IfErr result (λ ending. FailsAmong (map (λ word. word.now) files.now) (left_of D.reads texts desk.old) (left_of D.reads texts desk.new) (D.faults desk.old) (D.faults desk.new) ending) }
    ensures reads { Extends (D.reads desk.old) (D.reads desk.new) (λ added. MatchResult result (λ none. AreWholeTurns (map (λ word. word.now) files.now) added) (λ ending. EndsAmong (map (λ word. word.now) files.now) ending added)) }
    ensures counts { (other : List ℕ) → D.faults desk.old other ≤ D.faults desk.new other }
    ensures others { (other : List ℕ) → IsNone other (map (λ word. word.now) files.now) → StaysUnread (D.reads desk.old) (D.reads desk.new) other }
{
    let [file, rest @ ..] = files else {
        return Ok(());
    };
    let table = match take(alloc, &TableText, file, desk) {
        Ok(table) => table,
        Err(ending) => return Err(ending),
    };
    if tables.push(table).is_err() {
        return Err(Ending::Memory);
    }
    take_tables(alloc, rest, desk, tables)
}

/// The ending of a command whose script ended so.
pub(super) fn drive_ended<'a>(ended: Result<u64, DriveError>) -> Ending<'a>
    ensures { IsEndOfDrive ended result }
{
    match ended {
        Ok(_) => Ending::Done(Summary::Nothing),
        Err(DriveError::WriteFault) => Ending::WriteFault,
        Err(DriveError::Memory) => Ending::Memory,
    }
}

/// Writes the line of each command of the script, run over the tables in a memory of so many slots.
#[inline(never)]
pub(crate) fn run_script<'a, D: Desk, K: Sink>(
    alloc: Global,
    run: &ScriptRun<'a>,
    desk: &mut D,
    out: &mut K,
) -> Ending<'a>
    ensures ends { (texts : List ℕ → List ℕ) → MayBeTexts (D.reads desk.new) texts → Ends (meaning (script_and_tables (Drive run.now.slots.count) (plain_seen run.now.words)))
        (seen (left_of D.reads texts) D.faults K.written K.faults desk.old out.old)
        (seen (left_of D.reads texts) D.faults K.written K.faults desk.new out.new)
        result }
    ensures others { (other : List ℕ) → IsNoInput (meaning (script_and_tables (Drive run.now.slots.count) (plain_seen run.now.words))).inputs other → StaysUnread (D.reads desk.old) (D.reads desk.new) other }
    ensures calls { let command = meaning (script_and_tables (Drive run.now.slots.count) (plain_seen run.now.words)) in
        MakesCalls command.writes (names_of command) (D.reads desk.old) (D.reads desk.new) (K.written out.old) (K.written out.new) result }
{
    run_words(alloc, run.slots, run.words.as_slice(), desk, out)
}

/// The same, where the first of the words is the script's and the others are the tables'.
fn run_words<'a, D: Desk, K: Sink>(
    alloc: Global,
    slots: Slots,
    files: &[&'a str],
    desk: &mut D,
    out: &mut K,
) -> Ending<'a>
    requires some { 0 < length files.now }
    requires few { length files.now ≤ 9 }
    requires apart { IsTrue (all_differ (map (λ word. word.now) files.now)) }
    ensures ends { (texts : List ℕ → List ℕ) → MayBeTexts (D.reads desk.new) texts → Ends (meaning (script_and_tables (Drive slots.count) (map (λ word. word.now) files.now)))
        (seen (left_of D.reads texts) D.faults K.written K.faults desk.old out.old)
        (seen (left_of D.reads texts) D.faults K.written K.faults desk.new out.new)
        result }
    ensures others { (other : List ℕ) → IsNoInput (meaning (script_and_tables (Drive slots.count) (map (λ word. word.now) files.now))).inputs other → StaysUnread (D.reads desk.old) (D.reads desk.new) other }
    ensures calls { let command = meaning (script_and_tables (Drive slots.count) (map (λ word. word.now) files.now)) in
        MakesCalls command.writes (names_of command) (D.reads desk.old) (D.reads desk.new) (K.written out.old) (K.written out.new) result }
{
    let [script, tables @ ..] = files else {
        unreachable!()
    };
    run_tables(alloc, slots, script, tables, desk, out)
}

/// The same, over a script and the tables of these files.
fn run_tables<'a, D: Desk, K: Sink>(
    alloc: Global,
    slots: Slots,
    script: &'a str,
    files: &[&'a str],
    desk: &mut D,
    out: &mut K,
) -> Ending<'a>
    requires few { length files.now ≤ 8 }
    requires apart { IsTrue (all_differ (script.now ∷ map (λ word. word.now) files.now)) }
    ensures ends { (texts : List ℕ → List ℕ) → MayBeTexts (D.reads desk.new) texts → Ends (swapping slots.count script.now (map (λ word. word.now) files.now))
        (seen (left_of D.reads texts) D.faults K.written K.faults desk.old out.old)
        (seen (left_of D.reads texts) D.faults K.written K.faults desk.new out.new)
        result }
    ensures others { (other : List ℕ) → IsNoInput (swapping slots.count script.now (map (λ word. word.now) files.now)).inputs other → StaysUnread (D.reads desk.old) (D.reads desk.new) other }
    ensures calls { MakesCalls by_lines (names_of (swapping slots.count script.now (map (λ word. word.now) files.now))) (D.reads desk.old) (D.reads desk.new) (K.written out.old) (K.written out.new) result }
{
    let tables = files.len() as u32;
    let script = match take(alloc, &ScriptText { tables }, script, desk) {
        Ok(script) => script,
        Err(ending) => return ending,
    };
    let mut tables = Vec::new(alloc);
    if let Err(ending) = take_tables(alloc, files, desk, &mut tables) {
        return ending;
    }
    let bank = match Bank::new(alloc, slots.count) {
        Ok(bank) => bank,
        Err(_) => return Ending::Memory,
    };
    a_run_without_faults_is_the_session();
    let mut swapper = Swapper::new(bank);
    let ended = drive_on(alloc, &script, &tables, &mut swapper, out);
    drive_ended(ended)
}

/// What `drive` has written is the line of each command of the script, run over the tables.
pub fn scripts_print_their_sessions()
    ensures { (before after : Outside) (line : List ℕ) (slots : ℕ) (script : List ℕ) (tables : List (List ℕ)) (text : List ℕ) →
        KeepsPromise (swapping slots script tables) before after line 0 → before.remaining script ≡ text →
        Adds before after (IsDriven slots before tables text) }
{}
