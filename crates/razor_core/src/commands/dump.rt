//! `dump`: the table that stands in a memory.
ghost use Rattle.std.specs.Prelude.{◌≡◌, ◌≢◌, ℕ, List, [], ◌∷◌};
ghost use Rattle.razor_base.specs.Texts.{StaysUnread, left_of};
ghost use Rattle.razor_core.specs.PossibleTexts.{MayBeTexts};
ghost use Rattle.razor_core.specs.Ending.{Ends};
ghost use Rattle.razor_core.specs.Outside.{seen, Adds, Outside};
ghost use Rattle.razor_core.specs.Commands.Dump.{dumping, IsDumped};
ghost use Rattle.razor_core.specs.Promise.{KeepsPromise};
ghost use Rattle.razor_core.specs.Calls.{MakesCalls};
ghost use Rattle.razor_core.specs.Meaning.{at_the_end};

use crate::ending::{Ending, written};
use crate::taking::take;
use crate::texts::MemoryText;
use memory_text::table_in;
use razor_base::{Desk, Sink};
use std::alloc::Global;
use table_text::write_table;

/// Writes the table that stands in a memory.
#[inline(never)]
pub(crate) fn dump_memory<'a, D: Desk, K: Sink>(
    alloc: Global,
    file: &'a str,
    desk: &mut D,
    out: &mut K,
) -> Ending<'a>
    ensures ends { (texts : List ℕ → List ℕ) → MayBeTexts (D.reads desk.new) texts → Ends (dumping file.now)
        (seen (left_of D.reads texts) D.faults K.written K.faults desk.old out.old)
        (seen (left_of D.reads texts) D.faults K.written K.faults desk.new out.new)
        result }
    ensures others { (other : List ℕ) → other ≢ file.now → StaysUnread (D.reads desk.old) (D.reads desk.new) other }
    ensures calls { MakesCalls at_the_end (file.now ∷ []) (D.reads desk.old) (D.reads desk.new) (K.written out.old) (K.written out.new) result }
{
    let memory = match take(alloc, &MemoryText, file, desk) {
        Ok(memory) => memory,
        Err(ending) => return ending,
    };
    let table = match table_in(alloc, &memory) {
        Ok(table) => table,
        Err(_) => return Ending::Memory,
    };
    written(write_table(&table, out))
}

/// What `dump` has written is the table that stands in the memory that was read.
pub fn dumped_tables_are_those_of_their_memories()
    ensures { (before after : Outside) (line : List ℕ) (file text : List ℕ) →
        KeepsPromise (dumping file) before after line 0 → before.remaining file ≡ text →
        Adds before after (IsDumped text) }
{}
