//! `equiv`: whether two lists decide every header alike, or on which they first differ.
ghost use Rattle.std.specs.Prelude.{◌≢◌, ℕ, List, [], ◌∷◌, ◌≡◌};
ghost use Rattle.razor_base.specs.Headline.Outcomes.{Extends};
ghost use Rattle.field_boxes.specs.Lists.{filter_list};
ghost use Rattle.list_equiv.specs.Verdict.{IsListVerdict};
ghost use Rattle.razor_base.specs.Output.{Writes};
ghost use Rattle.razor_base.specs.Texts.{StaysUnread, left_of};
ghost use Rattle.razor_core.specs.PossibleTexts.{MayBeTexts};
ghost use Rattle.razor_core.specs.Behind.{EndsOver};
ghost use Rattle.razor_core.specs.Ending.{Ends};
ghost use Rattle.razor_core.specs.Commands.Equiv.{verdict_text, IsAnswer, comparing, AreEqualLists};
ghost use Rattle.razor_core.specs.Outside.{seen, Outside};
ghost use Rattle.razor_core.specs.Taking.{value_of};
ghost use Rattle.razor_core.specs.Promise.{KeepsPromise};
ghost use Rattle.razor_core.specs.Calls.{MakesCalls, WritesBehind};
ghost use Rattle.razor_core.specs.Meaning.{at_the_end};

use crate::commands::difference::write_difference;
use crate::ending::{Ending, Summary};
use crate::taking::take;
use crate::texts::ListText;
use command_words::TwoFiles;
use field_boxes::RuleList;
use list_equiv::{Verdict, equal};
use razor_base::{Desk, Failed, Part, Sink, write_parts};
use std::alloc::Global;

/// Says whether the lists decide every header alike, or on which they first differ.
#[inline(never)]
pub(crate) fn compare_lists<'a, D: Desk, K: Sink>(
    alloc: Global,
    files: TwoFiles<'a>,
    desk: &mut D,
    out: &mut K,
) -> Ending<'a>
    ensures ends { (texts : List ℕ → List ℕ) → MayBeTexts (D.reads desk.new) texts → Ends (comparing files.entry.first.now files.entry.second.now)
        (seen (left_of D.reads texts) D.faults K.written K.faults desk.old out.old)
        (seen (left_of D.reads texts) D.faults K.written K.faults desk.new out.new)
        result }
    ensures others { (other : List ℕ) → other ≢ files.entry.first.now → other ≢ files.entry.second.now → StaysUnread (D.reads desk.old) (D.reads desk.new) other }
    ensures calls { MakesCalls at_the_end (files.entry.first.now ∷ files.entry.second.now ∷ []) (D.reads desk.old) (D.reads desk.new) (K.written out.old) (K.written out.new) result }
{
    let left = match take(alloc, &ListText, files.first, desk) {
        Ok(list) => list,
        Err(ending) => return ending,
    };
    let right = match take(alloc, &ListText, files.second, desk) {
        Ok(list) => list,
        Err(ending) => return ending,
    };
    compare(alloc, &left, &right, out)
}

/// Writes what comparing the lists comes to, and says how the command ends.
fn compare<'a, K: Sink>(alloc: Global, left: &RuleList, right: &RuleList, out: &mut K) -> Ending<'a>
    ensures ends { (one two : List ℕ) → EndsOver (comparing one two) (value_of left.now ∷ value_of right.now ∷ [])
        (K.written out.old) (K.written out.new) (K.faults out.old) (K.faults out.new) result }
    ensures writes { Extends (K.written out.old) (K.written out.new) (WritesBehind result) }
{
    let verdict = match equal(alloc, left, right) {
        Ok(verdict) => verdict,
        Err(_) => return Ending::Memory,
    };
    match write_verdict(verdict, left, right, out) {
        Ok(()) => answered(verdict),
        Err(_) => Ending::WriteFault,
    }
}

/// Writes what comparing the lists came to.
fn write_verdict<'a, K: Sink>(
    verdict: Verdict,
    left: &'a RuleList,
    right: &'a RuleList,
    out: &mut K,
) -> Result<(), Failed>
    requires { IsListVerdict left.now right.now verdict }
    ensures { Writes K.written K.faults out.old out.new (verdict_text verdict (filter_list left.now).rules (filter_list right.now).rules) result }
{
    match verdict {
        Verdict::Equal => write_parts(out, &[Part::Text("equal\n")]),
        Verdict::Differ {
            header,
            left: first,
            right: second,
        } => write_difference(
            &header,
            left.names.name(first),
            right.names.name(second),
            out,
        ),
    }
}

/// The ending of a command whose verdict was written.
fn answered<'a>(verdict: Verdict) -> Ending<'a>
    ensures { IsAnswer verdict result }
{
    match verdict {
        Verdict::Equal => Ending::Done(Summary::Nothing),
        Verdict::Differ { .. } => Ending::No,
    }
}

/// Where `equiv` says that two lists are equal, they decide every header alike.
pub fn equal_lists_decide_alike()
    ensures { (before after : Outside) (line : List ℕ) (left right first second : List ℕ) →
        KeepsPromise (comparing left right) before after line 0 → before.remaining left ≡ first → before.remaining right ≡ second →
        AreEqualLists first second }
{}
