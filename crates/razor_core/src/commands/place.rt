//! `place`: a memory in which a table stands.
ghost use Rattle.std.specs.Prelude.{◌≡◌, ◌≢◌, ℕ, List, [], ◌∷◌};
ghost use Rattle.razor_base.specs.Texts.{StaysUnread, left_of};
ghost use Rattle.razor_core.specs.PossibleTexts.{MayBeTexts};
ghost use Rattle.razor_core.specs.Ending.{Ends};
ghost use Rattle.razor_core.specs.Outside.{seen, Adds, Outside};
ghost use Rattle.razor_core.specs.Commands.Place.{placing, IsPlaced};
ghost use Rattle.razor_core.specs.Promise.{KeepsPromise};
ghost use Rattle.razor_core.specs.Calls.{MakesCalls};
ghost use Rattle.razor_core.specs.Meaning.{at_the_end};

use crate::ending::{Ending, written};
use crate::taking::take;
use crate::texts::TableText;
use command_words::Slots;
use memory_text::{spread, write_memory};
use razor_base::{Desk, Sink};
use std::alloc::Global;

/// Writes a memory of so many slots in which a table stands in order, evenly.
#[inline(never)]
pub(crate) fn place_table<'a, D: Desk, K: Sink>(
    alloc: Global,
    slots: Slots,
    file: &'a str,
    desk: &mut D,
    out: &mut K,
) -> Ending<'a>
    ensures ends { (texts : List ℕ → List ℕ) → MayBeTexts (D.reads desk.new) texts → Ends (placing slots.count file.now)
        (seen (left_of D.reads texts) D.faults K.written K.faults desk.old out.old)
        (seen (left_of D.reads texts) D.faults K.written K.faults desk.new out.new)
        result }
    ensures others { (other : List ℕ) → other ≢ file.now → StaysUnread (D.reads desk.old) (D.reads desk.new) other }
    ensures calls { MakesCalls at_the_end (file.now ∷ []) (D.reads desk.old) (D.reads desk.new) (K.written out.old) (K.written out.new) result }
{
    let table = match take(alloc, &TableText, file, desk) {
        Ok(table) => table,
        Err(ending) => return ending,
    };
    if table.entries.len() > slots.count as usize {
        return Ending::TooMany {
            needed: table.entries.len() as u128,
            limit: slots.count,
        };
    }
    let memory = match spread(alloc, slots.count, &table) {
        Ok(memory) => memory,
        Err(_) => return Ending::Memory,
    };
    written(write_memory(&memory, out))
}

/// What `place` has written is a memory in whose slots the table that was read stands in order, evenly.
pub fn placed_tables_stand_in_their_slots()
    ensures { (before after : Outside) (line : List ℕ) (slots : ℕ) (file text : List ℕ) →
        KeepsPromise (placing slots file) before after line 0 → before.remaining file ≡ text →
        Adds before after (IsPlaced slots text) }
{}
