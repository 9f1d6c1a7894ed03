//! `migrate`: a table of either version in the compact text.
ghost use Rattle.std.specs.Prelude.{◌≢◌, ◌≡◌, ℕ, List, [], ◌∷◌};
ghost use Rattle.razor_base.specs.Texts.{StaysUnread, left_of};
ghost use Rattle.razor_core.specs.PossibleTexts.{MayBeTexts};
ghost use Rattle.razor_core.specs.Ending.{Ends};
ghost use Rattle.razor_core.specs.Outside.{seen, Adds, Outside};
ghost use Rattle.razor_core.specs.Commands.Migrate.{migrating, IsMigrated};
ghost use Rattle.razor_core.specs.Promise.{KeepsPromise};
ghost use Rattle.razor_core.specs.Calls.{MakesCalls};
ghost use Rattle.razor_core.specs.Meaning.{at_the_end};

use crate::ending::{Ending, written};
use crate::taking::take;
use crate::texts::TableText;
use razor_base::{Desk, Sink};
use std::alloc::Global;
use table_text::write_table;

/// Writes a table of either version in the compact text.
#[inline(never)]
pub(crate) fn migrate_table<'a, D: Desk, K: Sink>(
    alloc: Global,
    file: &'a str,
    desk: &mut D,
    out: &mut K,
) -> Ending<'a>
    ensures ends { (texts : List ℕ → List ℕ) → MayBeTexts (D.reads desk.new) texts → Ends (migrating file.now)
        (seen (left_of D.reads texts) D.faults K.written K.faults desk.old out.old)
        (seen (left_of D.reads texts) D.faults K.written K.faults desk.new out.new)
        result }
    ensures others { (other : List ℕ) → other ≢ file.now → StaysUnread (D.reads desk.old) (D.reads desk.new) other }
    ensures calls { MakesCalls at_the_end (file.now ∷ []) (D.reads desk.old) (D.reads desk.new) (K.written out.old) (K.written out.new) result }
{
    let table = match take(alloc, &TableText, file, desk) {
        Ok(table) => table,
        Err(ending) => return ending,
    };
    written(write_table(&table, out))
}

/// What `migrate` has written spells the table that was read, compactly.
pub fn migrated_tables_are_those_read()
    ensures { (before after : Outside) (line : List ℕ) (file text : List ℕ) →
        KeepsPromise (migrating file) before after line 0 → before.remaining file ≡ text →
        Adds before after (IsMigrated text) }
{}
