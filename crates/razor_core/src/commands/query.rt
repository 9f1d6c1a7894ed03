//! `query`: the boxes inside a box in which a list decides as asked.
ghost use Rattle.std.specs.Prelude.{◌≢◌, ◌≡◌, ℕ, List, [], ◌∷◌, Option};
ghost use Rattle.razor_base.specs.Headline.Outcomes.{Extends};
ghost use Rattle.command_words.specs.Questions.{name_in};
ghost use Rattle.field_boxes.specs.Spans.{intervals_of};
ghost use Rattle.field_boxes.specs.Headline.Classifier.{Interval};
ghost use Rattle.field_boxes.specs.Lists.{filter_list};
ghost use Rattle.razor_base.specs.Output.{Writes};
ghost use Rattle.razor_base.specs.Texts.{StaysUnread, left_of};
ghost use Rattle.razor_core.specs.PossibleTexts.{MayBeTexts};
ghost use Rattle.razor_core.specs.Ending.{Ends};
ghost use Rattle.razor_core.specs.Outside.{seen, Adds, Outside};
ghost use Rattle.razor_core.specs.OneText.{IsEndOf};
ghost use Rattle.razor_core.specs.Commands.Query.{count_line, AreAnswered, IsCounted, querying, IsQueried};
ghost use Rattle.razor_core.specs.Promise.{KeepsPromise};
ghost use Rattle.razor_core.specs.Calls.{MakesCalls, WritesBehind};
ghost use Rattle.razor_core.specs.Meaning.{at_the_end};

use crate::ending::{Ending, Summary};
use crate::taking::take;
use crate::texts::ListText;
use box_query::{QueryError, query};
use command_words::Question;
use field_boxes::RuleList;
use razor_base::{Desk, Failed, Part, Sink, write_parts};
use std::alloc::Global;

/// Writes the boxes inside the spans in which the list decides as asked, and how many they are.
#[inline(never)]
pub(crate) fn query_list<'a, D: Desk, K: Sink>(
    alloc: Global,
    question: Question<'a>,
    desk: &mut D,
    out: &mut K,
) -> Ending<'a>
    ensures ends { (texts : List ℕ → List ℕ) → MayBeTexts (D.reads desk.new) texts → Ends (querying question.entry.list.now (intervals_of question.entry.spans) (name_in question.entry.decision.now))
        (seen (left_of D.reads texts) D.faults K.written K.faults desk.old out.old)
        (seen (left_of D.reads texts) D.faults K.written K.faults desk.new out.new)
        result }
    ensures others { (other : List ℕ) → other ≢ question.entry.list.now → StaysUnread (D.reads desk.old) (D.reads desk.new) other }
    ensures calls { MakesCalls at_the_end (question.entry.list.now ∷ []) (D.reads desk.old) (D.reads desk.new) (K.written out.old) (K.written out.new) result }
{
    let list = match take(alloc, &ListText, question.list, desk) {
        Ok(list) => list,
        Err(ending) => return ending,
    };
    answer_question(alloc, &list, question, out)
}

/// Writes the boxes and how many they are, and says how the command ends.
fn answer_question<'a, K: Sink>(
    alloc: Global,
    list: &RuleList,
    question: Question<'a>,
    out: &mut K,
) -> Ending<'a>
    ensures ends { IsEndOf (AreAnswered (intervals_of question.entry.spans) (name_in question.entry.decision.now) (filter_list list.now).rules)
        (K.written out.old) (K.written out.new) (K.faults out.old) (K.faults out.new) result }
    ensures writes { Extends (K.written out.old) (K.written out.new) (WritesBehind result) }
{
    let Some(number) = list.names.number(question.decision) else {
        return counted(0, out);
    };
    match query(alloc, list, &question.spans, number, out) {
        Ok(boxes) => counted(boxes, out),
        Err(QueryError::Fault) => Ending::WriteFault,
        Err(QueryError::Memory) => Ending::Memory,
    }
}

/// Writes how many boxes there are.
fn write_count<K: Sink>(boxes: u128, out: &mut K) -> Result<(), Failed>
    ensures { Writes K.written K.faults out.old out.new (count_line boxes) result }
{
    write_parts(
        out,
        &[Part::Text("boxes "), Part::Number(boxes), Part::Text("\n")],
    )
}

/// Writes how many boxes there are, and says how the command ends.
fn counted<'a, K: Sink>(boxes: u128, out: &mut K) -> Ending<'a>
    ensures ends { IsCounted boxes (K.written out.old) (K.written out.new) (K.faults out.old) (K.faults out.new) result }
    ensures writes { Extends (K.written out.old) (K.written out.new) (WritesBehind result) }
{
    match write_count(boxes, out) {
        Ok(()) => Ending::Done(Summary::Nothing),
        Err(_) => Ending::WriteFault,
    }
}

/// What `query` has written are the boxes in which the list decides as asked, and how many they are.
pub fn boxes_are_where_the_list_decides_so()
    ensures { (before after : Outside) (line : List ℕ) (box : List Interval) (name : Option (List ℕ)) (file text : List ℕ) →
        KeepsPromise (querying file box name) before after line 0 → before.remaining file ≡ text →
        Adds before after (IsQueried box name text) }
{}
