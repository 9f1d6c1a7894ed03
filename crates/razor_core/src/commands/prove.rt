//! `prove`: a proof that a list and a table decide every header alike, or of the least header on which they don't.
ghost use Rattle.std.specs.Prelude.{◌≢◌, ℕ, List, [], ◌∷◌, ◌≡◌};
ghost use Rattle.razor_base.specs.Headline.Outcomes.{Extends};
ghost use Rattle.razor_base.specs.Texts.{StaysUnread, left_of};
ghost use Rattle.razor_core.specs.PossibleTexts.{MayBeTexts};
ghost use Rattle.razor_core.specs.Behind.{EndsOver};
ghost use Rattle.razor_core.specs.Ending.{Ends};
ghost use Rattle.razor_core.specs.Commands.Prove.{IsProven, proving};
ghost use Rattle.razor_core.specs.Outside.{seen, Adds, Outside};
ghost use Rattle.razor_core.specs.Taking.{table_value_of, value_of};
ghost use Rattle.razor_core.specs.Promise.{KeepsPromise};
ghost use Rattle.razor_core.specs.Calls.{MakesCalls, WritesBehind};
ghost use Rattle.razor_core.specs.Meaning.{at_the_end};

use crate::commands::verify::is_equal;
use crate::ending::{Ending, answered};
use crate::taking::take;
use crate::texts::{ListText, TableText};
use agreement_check::laws::{valid_proofs_are_true, valid_proofs_begin_so};
use agreement_proof::prove;
use command_words::TwoFiles;
use field_boxes::RuleList;
use razor_base::{Desk, Sink, write_all};
use std::alloc::Global;
use ternary_words::Table;

/// Writes a proof that the list and the table decide every header alike, or of the least one on which they don't, and says how the
/// command ends.
#[inline(never)]
pub(crate) fn prove_table<'a, D: Desk, K: Sink>(
    alloc: Global,
    files: TwoFiles<'a>,
    desk: &mut D,
    out: &mut K,
) -> Ending<'a>
    ensures ends { (texts : List ℕ → List ℕ) → MayBeTexts (D.reads desk.new) texts → Ends (proving files.entry.first.now files.entry.second.now)
        (seen (left_of D.reads texts) D.faults K.written K.faults desk.old out.old)
        (seen (left_of D.reads texts) D.faults K.written K.faults desk.new out.new)
        result }
    ensures others { (other : List ℕ) → other ≢ files.entry.first.now → other ≢ files.entry.second.now → StaysUnread (D.reads desk.old) (D.reads desk.new) other }
    ensures calls { MakesCalls at_the_end (files.entry.first.now ∷ files.entry.second.now ∷ []) (D.reads desk.old) (D.reads desk.new) (K.written out.old) (K.written out.new) result }
{
    let list = match take(alloc, &ListText, files.first, desk) {
        Ok(list) => list,
        Err(ending) => return ending,
    };
    let table = match take(alloc, &TableText, files.second, desk) {
        Ok(table) => table,
        Err(ending) => return ending,
    };
    write_proof(alloc, &list, &table, out)
}

/// Writes the proof, and says how the command ends.
fn write_proof<'a, K: Sink>(
    alloc: Global,
    list: &RuleList,
    table: &Table,
    out: &mut K,
) -> Ending<'a>
    ensures ends { (one two : List ℕ) → EndsOver (proving one two) (value_of list.now ∷ table_value_of table.now ∷ [])
        (K.written out.old) (K.written out.new) (K.faults out.old) (K.faults out.new) result }
    ensures writes { Extends (K.written out.old) (K.written out.new) (WritesBehind result) }
{
    valid_proofs_are_true();
    valid_proofs_begin_so();
    let proof = match prove(alloc, list, table) {
        Ok(proof) => proof,
        Err(_) => return Ending::Memory,
    };
    answered(is_equal(&proof.valid.shown), write_all(out, &proof.text))
}

/// What `prove` has written is a proof that `check` calls valid, if it has at most 268,435,456 bytes; with status 0 it shows that list
/// and table decide every header alike.
pub fn proofs_are_valid()
    ensures { (before after : Outside) (line : List ℕ) (list table first second : List ℕ) →
        KeepsPromise (proving list table) before after line 0 → before.remaining list ≡ first → before.remaining table ≡ second →
        Adds before after (IsProven first second) }
{}
