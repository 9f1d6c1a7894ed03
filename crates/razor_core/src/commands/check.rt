//! `check`: whether a proof or a certificate shows that a list and a table decide every header alike.
ghost use Rattle.std.specs.Prelude.{◌≡◌, ◌≢◌, ◌∷◌, [], ℕ, List};
ghost use Rattle.razor_base.specs.Texts.{StaysUnread, left_of};
ghost use Rattle.razor_core.specs.PossibleTexts.{MayBeTexts};
ghost use Rattle.razor_core.specs.Commands.Check.{IsEndOfCheck, checking, AgreeByName};
ghost use Rattle.razor_core.specs.Outside.{seen, Outside};
ghost use Rattle.razor_core.specs.Ending.{Ends};
ghost use Rattle.razor_core.specs.Promise.{KeepsPromise};
ghost use Rattle.razor_core.specs.Calls.{MakesCalls};
ghost use Rattle.razor_core.specs.Meaning.{at_the_end};

mod front;
mod proof;
mod rows;

use crate::ending::Ending;
use crate::taking::take;
use crate::texts::{ListText, TableText};
use command_words::ThreeFiles;
use field_boxes::RuleList;
use front::{is_proof, read_front};
use proof::check_agreement;
use razor_base::limits::BUFFER_BYTES;
use razor_base::{Desk, Sink};
use rows::check_rows;
use std::alloc::Global;
use ternary_words::Table;

/// Checks the text by list and table, as what it is: a proof, or a certificate of rows.
#[inline(never)]
fn check_text<'a, D: Desk, K: Sink>(
    alloc: Global,
    list: &RuleList,
    table: &Table,
    file: &'a str,
    desk: &mut D,
    out: &mut K,
) -> Ending<'a>
    ensures ends { (texts : List ℕ → List ℕ) → MayBeTexts (D.reads desk.new) texts → IsEndOfCheck list.now table.now file.now
        (seen (left_of D.reads texts) D.faults K.written K.faults desk.old out.old)
        (seen (left_of D.reads texts) D.faults K.written K.faults desk.new out.new)
        result }
    ensures others { (other : List ℕ) → other ≢ file.now → StaysUnread (D.reads desk.old) (D.reads desk.new) other }
    ensures calls { MakesCalls at_the_end (file.now ∷ []) (D.reads desk.old) (D.reads desk.new) (K.written out.old) (K.written out.new) result }
{
    let mut buffer = [0; BUFFER_BYTES];
    let front = match read_front(desk, file, &mut buffer) {
        Ok(front) => front,
        Err(_) => return Ending::ReadFault { file },
    };
    if is_proof(&buffer[..front.read]) {
        check_agreement(alloc, list, table, file, desk, &mut buffer, front.read, out)
    } else {
        check_rows(alloc, list, table, file, desk, &mut buffer, front, out)
    }
}

/// Says whether the text shows that list and table decide every header alike, or how they differ.
#[inline(never)]
pub(crate) fn check_certificate<'a, D: Desk, K: Sink>(
    alloc: Global,
    files: ThreeFiles<'a>,
    desk: &mut D,
    out: &mut K,
) -> Ending<'a>
    ensures ends { (texts : List ℕ → List ℕ) → MayBeTexts (D.reads desk.new) texts → Ends (checking files.entry.first.now files.entry.second.now files.entry.third.now)
        (seen (left_of D.reads texts) D.faults K.written K.faults desk.old out.old)
        (seen (left_of D.reads texts) D.faults K.written K.faults desk.new out.new)
        result }
    ensures others { (other : List ℕ) → other ≢ files.entry.first.now → other ≢ files.entry.second.now → other ≢ files.entry.third.now → StaysUnread (D.reads desk.old) (D.reads desk.new) other }
    ensures calls { MakesCalls at_the_end (files.entry.first.now ∷ files.entry.second.now ∷ files.entry.third.now ∷ []) (D.reads desk.old) (D.reads desk.new) (K.written out.old) (K.written out.new) result }
{
    let list = match take(alloc, &ListText, files.first, desk) {
        Ok(list) => list,
        Err(ending) => return ending,
    };
    let table = match take(alloc, &TableText, files.second, desk) {
        Ok(table) => table,
        Err(ending) => return ending,
    };
    partition_check::laws::equal_lists_have_one_verdict();
    agreement_check::laws::equal_lists_have_one_verdict();
    check_text(alloc, &list, &table, files.third, desk, out)
}

/// Where `check` says that a text is valid, and not that it shows a difference, list and table decide every header alike, whoever made it.
pub fn valid_certificates_show_agreement()
    ensures { (before after : Outside) (line : List ℕ) (list table certificate first second third : List ℕ) →
        KeepsPromise (checking list table certificate) before after line 0 →
        before.remaining list ≡ first → before.remaining table ≡ second → before.remaining certificate ≡ third →
        AgreeByName first second }
{}
