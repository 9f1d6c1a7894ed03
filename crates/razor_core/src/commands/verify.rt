//! `verify`: whether a list and a table decide every header alike, or on which they first differ.
ghost use Rattle.std.specs.Prelude.{◌≢◌, ℕ, List, [], ◌∷◌, ◌≡◌};
ghost use Rattle.razor_base.specs.Headline.Outcomes.{Extends};
ghost use Rattle.razor_base.specs.Output.{Writes};
ghost use Rattle.razor_base.specs.Texts.{StaysUnread, left_of};
ghost use Rattle.agreement_proof.specs.Outcome.{IsAnswer};
ghost use Rattle.razor_core.specs.PossibleTexts.{MayBeTexts};
ghost use Rattle.razor_core.specs.Behind.{EndsOver};
ghost use Rattle.razor_core.specs.Ending.{Ends};
ghost use Rattle.razor_core.specs.Commands.Check.{AgreeByName, is_equal};
ghost use Rattle.razor_core.specs.Commands.Verify.{answer_line, verifying};
ghost use Rattle.razor_core.specs.Outside.{seen, Outside};
ghost use Rattle.razor_core.specs.Taking.{table_value_of, value_of};
ghost use Rattle.razor_core.specs.Promise.{KeepsPromise};
ghost use Rattle.razor_core.specs.Calls.{MakesCalls, WritesBehind};
ghost use Rattle.razor_core.specs.Meaning.{at_the_end};

use crate::commands::difference::{decision_text, write_difference};
use crate::ending::{Ending, answered};
use crate::taking::take;
use crate::texts::{ListText, TableText};
use agreement_check::Shown;
use agreement_proof::compare;
use command_words::TwoFiles;
use field_boxes::RuleList;
use razor_base::{Desk, Failed, Part, Sink, write_parts};
use std::alloc::Global;
use ternary_words::Table;

/// Says whether the list and the table decide every header alike, or on which they first differ.
#[inline(never)]
pub(crate) fn verify_table<'a, D: Desk, K: Sink>(
    alloc: Global,
    files: TwoFiles<'a>,
    desk: &mut D,
    out: &mut K,
) -> Ending<'a>
    ensures ends { (texts : List ℕ → List ℕ) → MayBeTexts (D.reads desk.new) texts → Ends (verifying files.entry.first.now files.entry.second.now)
        (seen (left_of D.reads texts) D.faults K.written K.faults desk.old out.old)
        (seen (left_of D.reads texts) D.faults K.written K.faults desk.new out.new)
        result }
    ensures others { (other : List ℕ) → other ≢ files.entry.first.now → other ≢ files.entry.second.now → StaysUnread (D.reads desk.old) (D.reads desk.new) other }
    ensures calls { MakesCalls at_the_end (files.entry.first.now ∷ files.entry.second.now ∷ []) (D.reads desk.old) (D.reads desk.new) (K.written out.old) (K.written out.new) result }
{
    let list = match take(alloc, &ListText, files.first, desk) {
        Ok(list) => list,
        Err(ending) => return ending,
    };
    let table = match take(alloc, &TableText, files.second, desk) {
        Ok(table) => table,
        Err(ending) => return ending,
    };
    verify(alloc, &list, &table, out)
}

/// Writes what comparing the list and the table comes to, and says how the command ends.
fn verify<'a, K: Sink>(alloc: Global, list: &RuleList, table: &Table, out: &mut K) -> Ending<'a>
    ensures ends { (one two : List ℕ) → EndsOver (verifying one two) (value_of list.now ∷ table_value_of table.now ∷ [])
        (K.written out.old) (K.written out.new) (K.faults out.old) (K.faults out.new) result }
    ensures writes { Extends (K.written out.old) (K.written out.new) (WritesBehind result) }
{
    let shown = match compare(alloc, list, table) {
        Ok(shown) => shown,
        Err(_) => return Ending::Memory,
    };
    answered(is_equal(&shown), write_answer(&shown, list, table, out))
}

/// Writes whether list and table decide every header alike, or on which they first differ.
fn write_answer<'a, K: Sink>(
    shown: &Shown,
    list: &'a RuleList,
    table: &'a Table,
    out: &mut K,
) -> Result<(), Failed>
    requires { IsAnswer list.now table.now shown.now }
    ensures { Writes K.written K.faults out.old out.new (answer_line list.now table.now shown.now) result }
{
    match *shown {
        Shown::Equal => write_parts(out, &[Part::Text("equal\n")]),
        Shown::Differ(difference) => write_difference(
            &difference.header,
            decision_text(&list.names, difference.left),
            decision_text(&table.names, difference.right),
            out,
        ),
    }
}

/// Whether the answer is that they decide every header alike.
pub(crate) fn is_equal(shown: &Shown) -> bool
    ensures { result ≡ is_equal shown.now }
{
    match *shown {
        Shown::Equal => true,
        Shown::Differ(_) => false,
    }
}

/// Where `verify` says that list and table are equal, they decide every header alike.
pub fn verified_tables_decide_alike()
    ensures { (before after : Outside) (line : List ℕ) (list table first second : List ℕ) →
        KeepsPromise (verifying list table) before after line 0 → before.remaining list ≡ first → before.remaining table ≡ second →
        AgreeByName first second }
{}
