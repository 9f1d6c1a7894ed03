//! `trim`: a table without its redundant entries.
ghost use Rattle.std.specs.Prelude.{◌≡◌, ◌≢◌, ℕ, List, [], ◌∷◌, IfOk};
ghost use Rattle.partition_check.specs.PrefixWords.{ArePrefixes};
ghost use Rattle.ternary_words.specs.Views.{table_of};
ghost use Rattle.razor_base.specs.Texts.{StaysUnread, left_of};
ghost use Rattle.razor_core.specs.PossibleTexts.{MayBeTexts};
ghost use Rattle.razor_core.specs.Ending.{Ends};
ghost use Rattle.razor_core.specs.Outside.{seen, Adds, Outside};
ghost use Rattle.razor_core.specs.Commands.Trim.{IsTrimmedTable, trimming, IsTrimmedText};
ghost use Rattle.razor_core.specs.Promise.{KeepsPromise};
ghost use Rattle.razor_core.specs.Calls.{MakesCalls};
ghost use Rattle.razor_core.specs.Meaning.{at_the_end};

use crate::ending::{Ending, written};
use crate::line_reason::LineReason;
use crate::taking::take;
use crate::texts::TableText;
use partition_check::first_other;
use razor_base::{Desk, Memory, Sink};
use rule_shortening::trim;
use std::alloc::Global;
use table_steps::laws::parts;
use table_text::write_table;
use ternary_words::Table;

/// Writes a table without its redundant entries.
#[inline(never)]
pub(crate) fn trim_table<'a, D: Desk, K: Sink>(
    alloc: Global,
    file: &'a str,
    desk: &mut D,
    out: &mut K,
) -> Ending<'a>
    ensures ends { (texts : List ℕ → List ℕ) → MayBeTexts (D.reads desk.new) texts → Ends (trimming file.now)
        (seen (left_of D.reads texts) D.faults K.written K.faults desk.old out.old)
        (seen (left_of D.reads texts) D.faults K.written K.faults desk.new out.new)
        result }
    ensures others { (other : List ℕ) → other ≢ file.now → StaysUnread (D.reads desk.old) (D.reads desk.new) other }
    ensures calls { MakesCalls at_the_end (file.now ∷ []) (D.reads desk.old) (D.reads desk.new) (K.written out.old) (K.written out.new) result }
{
    let table = match take(alloc, &TableText, file, desk) {
        Ok(table) => table,
        Err(ending) => return ending,
    };
    if let Some(place) = first_other(&table.entries) {
        return Ending::BadLine {
            file,
            line: place as u64 + 2,
            reason: LineReason::NotPrefix,
        };
    }
    let table = match trimmed(alloc, table) {
        Ok(table) => table,
        Err(_) => return Ending::Memory,
    };
    written(write_table(&table, out))
}

/// The table with the entries that are needed in the place of all.
fn trimmed(alloc: Global, table: Table) -> Result<Table, Memory>
    requires { ArePrefixes table.entries.items }
    ensures trimmed { IfOk result (λ trimmed. IsTrimmedTable (table_of table) (table_of trimmed)) }
    ensures names { IfOk result (λ trimmed. trimmed.names ≡ table.names) }
{
    parts();
    table.names.are_names();
    Ok(Table {
        slot: table.slot,
        composed: table.composed,
        entries: trim(alloc, table.entries)?,
        names: table.names,
    })
}

/// What `trim` has written is the table that was read without its redundant entries, which answers as it does.
pub fn trimmed_tables_answer_alike()
    ensures { (before after : Outside) (line : List ℕ) (file text : List ℕ) →
        KeepsPromise (trimming file) before after line 0 → before.remaining file ≡ text →
        Adds before after (IsTrimmedText text) }
{}
