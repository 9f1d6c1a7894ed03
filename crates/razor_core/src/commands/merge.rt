//! `merge`: a table whose entries are merged.
ghost use Rattle.std.specs.Prelude.{◌≡◌, ◌≢◌, ℕ, List, [], ◌∷◌, IfOk};
ghost use Rattle.ternary_words.specs.Views.{table_of};
ghost use Rattle.razor_base.specs.Texts.{StaysUnread, left_of};
ghost use Rattle.razor_core.specs.PossibleTexts.{MayBeTexts};
ghost use Rattle.razor_core.specs.Ending.{Ends};
ghost use Rattle.razor_core.specs.Commands.Merge.{IsMergedTable, merging, IsMergedText};
ghost use Rattle.razor_core.specs.Outside.{seen, Adds, Outside};
ghost use Rattle.razor_core.specs.Promise.{KeepsPromise};
ghost use Rattle.razor_core.specs.Calls.{MakesCalls};
ghost use Rattle.razor_core.specs.Meaning.{at_the_end};

use crate::ending::{Ending, written};
use crate::taking::take;
use crate::texts::TableText;
use bit_merge::merge;
use razor_base::{Desk, Memory, Sink};
use std::alloc::Global;
use table_text::write_table;
use ternary_words::Table;

/// Writes a table with its entries merged.
#[inline(never)]
pub(crate) fn merge_table<'a, D: Desk, K: Sink>(
    alloc: Global,
    file: &'a str,
    desk: &mut D,
    out: &mut K,
) -> Ending<'a>
    ensures ends { (texts : List ℕ → List ℕ) → MayBeTexts (D.reads desk.new) texts → Ends (merging file.now)
        (seen (left_of D.reads texts) D.faults K.written K.faults desk.old out.old)
        (seen (left_of D.reads texts) D.faults K.written K.faults desk.new out.new)
        result }
    ensures others { (other : List ℕ) → other ≢ file.now → StaysUnread (D.reads desk.old) (D.reads desk.new) other }
    ensures calls { MakesCalls at_the_end (file.now ∷ []) (D.reads desk.old) (D.reads desk.new) (K.written out.old) (K.written out.new) result }
{
    let table = match take(alloc, &TableText, file, desk) {
        Ok(table) => table,
        Err(ending) => return ending,
    };
    let table = match merged(alloc, table) {
        Ok(table) => table,
        Err(_) => return Ending::Memory,
    };
    written(write_table(&table, out))
}

/// The table with the merged entries in the place of its own.
fn merged(alloc: Global, table: Table) -> Result<Table, Memory>
    ensures merged { IfOk result (λ merged. IsMergedTable (table_of table) (table_of merged)) }
    ensures names { IfOk result (λ merged. merged.names ≡ table.names) }
{
    table.names.are_names();
    Ok(Table {
        slot: table.slot,
        composed: table.composed,
        entries: merge(alloc, table.entries)?,
        names: table.names,
    })
}

/// What `merge` has written is the table that was read with its entries merged, which answers as it does.
pub fn merged_tables_answer_alike()
    ensures { (before after : Outside) (line : List ℕ) (file text : List ℕ) →
        KeepsPromise (merging file) before after line 0 → before.remaining file ≡ text →
        Adds before after (IsMergedText text) }
{}
