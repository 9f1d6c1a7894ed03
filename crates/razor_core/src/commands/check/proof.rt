//! Proofs of agreement: their check, and how what it comes to is written.
ghost use Rattle.std.specs.Prelude.{◌≡◌, ◌≢◌, ◌≤◌, ◌∷◌, ◌++◌, [], ℕ, List, Option, length, take, true};
ghost use Rattle.field_boxes.specs.Headline.Names.{text_of};
ghost use Rattle.razor_limits.specs.declared.limits.TheConstants.{BUFFER_BYTES};
ghost use Rattle.razor_base.specs.Output.{Writes};
ghost use Rattle.razor_base.specs.Texts.{StaysUnread, left_of};
ghost use Rattle.agreement_check.specs.declared.wrong.Why.TheVariants as whys;
ghost use Rattle.agreement_proof.specs.Outcome.{IsAnswer};
ghost use Rattle.razor_core.specs.PossibleTexts.{MayBeTexts};
ghost use Rattle.razor_core.specs.Calls.{MakesCalls};
ghost use Rattle.razor_core.specs.Commands.Check.{IsEndBy, differ_text, equal_text, line_text, reason_text, shown_text, wrong_text};
ghost use Rattle.razor_core.specs.Meaning.{at_the_end};
ghost use Rattle.razor_core.specs.Outside.{seen};

use crate::commands::difference::decision_text;
use crate::commands::verify::is_equal;
use crate::ending::{Ending, answered};
use agreement_check::{Counts, Shown, Stop, Valid, Why, Wrong, check_proof};
use field_boxes::{Header, RuleList};
use razor_base::limits::MOST_CERTIFICATE_BYTES;
use razor_base::{Desk, Failed, Part, Sink, write_parts};
use std::alloc::Global;
use ternary_words::Table;

/// Writes what a valid proof shows.
fn write_valid<'a, K: Sink>(
    list: &'a RuleList,
    table: &'a Table,
    valid: &Valid,
    out: &mut K,
) -> Result<(), Failed>
    requires { IsAnswer list.now table.now valid.now.shown }
    ensures { Writes K.written K.faults out.old out.new (shown_text list.now table.now valid.now) result }
{
    match valid.shown {
        Shown::Equal => write_equal(valid.pairs, out),
        Shown::Differ(difference) => write_differ(
            &difference.header,
            decision_text(&list.names, difference.left),
            decision_text(&table.names, difference.right),
            valid.pairs,
            out,
        ),
    }
}

/// Writes that list and table agree, and how many pairs the proof has.
fn write_equal<K: Sink>(pairs: u64, out: &mut K) -> Result<(), Failed>
    ensures { Writes K.written K.faults out.old out.new (equal_text pairs) result }
{
    write_parts(
        out,
        &[
            Part::Text("valid equal pairs="),
            Part::Number(u128::from(pairs)),
            Part::Text("\n"),
        ],
    )
}

/// Writes on which header they first differ, what they decide there, and how many pairs the proof has.
fn write_differ<'a, K: Sink>(
    header: &Header,
    left: &'a str,
    right: &'a str,
    pairs: u64,
    out: &mut K,
) -> Result<(), Failed>
    ensures { (first second : Option (List ℕ)) → left.now ≡ text_of first → right.now ≡ text_of second →
        Writes K.written K.faults out.old out.new (differ_text header.now.values first second pairs) result }
{
    let [source, destination, source_port, destination_port, protocol] = header.values;
    write_parts(
        out,
        &[
            Part::Text("valid differ "),
            Part::Number(u128::from(source)),
            Part::Text(" "),
            Part::Number(u128::from(destination)),
            Part::Text(" "),
            Part::Number(u128::from(source_port)),
            Part::Text(" "),
            Part::Number(u128::from(destination_port)),
            Part::Text(" "),
            Part::Number(u128::from(protocol)),
            Part::Text(" "),
            Part::Text(left),
            Part::Text(" "),
            Part::Text(right),
            Part::Text(" pairs="),
            Part::Number(u128::from(pairs)),
            Part::Text("\n"),
        ],
    )
}

/// Writes which line of a proof is wrong, and why.
fn write_wrong<K: Sink>(wrong: Wrong, out: &mut K) -> Result<(), Failed>
    ensures { Writes K.written K.faults out.old out.new (wrong_text wrong) result }
{
    match wrong.why {
        Why::Form => write_reason(wrong.line, "form", out),
        Why::CountsDiffer { stated, found } => write_counts(wrong.line, stated, found, out),
        Why::DecidedAlike => write_reason(wrong.line, "decisions do not differ", out),
        Why::Order => write_reason(wrong.line, "order", out),
        Why::EntryCover => write_reason(wrong.line, "cover of entry", out),
        Why::RuleCover => write_reason(wrong.line, "cover of rule", out),
        Why::PairCover => write_reason(wrong.line, "cover of pair", out),
        Why::PairMissing { rule, entry } => write_parts(
            out,
            &[
                Part::Text("wrong line "),
                Part::Number(u128::from(wrong.line)),
                Part::Text(": pair "),
                Part::Number(u128::from(rule)),
                Part::Text(" "),
                Part::Number(u128::from(entry)),
                Part::Text(" missing\n"),
            ],
        ),
        Why::PairsDiffer { stated, found } => write_parts(
            out,
            &[
                Part::Text("wrong line "),
                Part::Number(u128::from(wrong.line)),
                Part::Text(": counts differ, stated "),
                Part::Number(u128::from(stated)),
                Part::Text(" found "),
                Part::Number(u128::from(found)),
                Part::Text("\n"),
            ],
        ),
        Why::EndsEarly => write_reason(wrong.line, "ends early", out),
    }
}

/// Writes that the line is wrong for a reason of these words.
fn write_reason<K: Sink>(line: u64, words: &'static str, out: &mut K) -> Result<(), Failed>
    ensures { Writes K.written K.faults out.old out.new (line_text line (words.now ++ 10 ∷ [])) result }
{
    write_parts(
        out,
        &[
            Part::Text("wrong line "),
            Part::Number(u128::from(line)),
            Part::Text(": "),
            Part::Text(words),
            Part::Text("\n"),
        ],
    )
}

/// Writes that the line states other counts than list and table have.
fn write_counts<K: Sink>(
    line: u64,
    stated: Counts,
    found: Counts,
    out: &mut K,
) -> Result<(), Failed>
    ensures { Writes K.written K.faults out.old out.new (line_text line (reason_text (whys.CountsDiffer stated found))) result }
{
    write_parts(
        out,
        &[
            Part::Text("wrong line "),
            Part::Number(u128::from(line)),
            Part::Text(": counts differ, stated "),
            Part::Number(u128::from(stated.rules)),
            Part::Text(" "),
            Part::Number(u128::from(stated.entries)),
            Part::Text(" found "),
            Part::Number(u128::from(found.rules)),
            Part::Text(" "),
            Part::Number(u128::from(found.entries)),
            Part::Text("\n"),
        ],
    )
}

/// Checks the proof, of which so many bytes were read into the buffer.
pub(crate) fn check_agreement<'a, D: Desk, K: Sink>(
    alloc: Global,
    list: &RuleList,
    table: &Table,
    file: &'a str,
    desk: &mut D,
    buffer: &mut [u8],
    read: usize,
    out: &mut K,
) -> Ending<'a>
    requires buffer { length buffer.old ≡ BUFFER_BYTES }
    requires read { read ≤ length buffer.old }
    ensures ends { (texts : List ℕ → List ℕ) → MayBeTexts (D.reads desk.new) texts → IsEndBy true list.now table.now file.now
        (take read buffer.old ++ left_of D.reads texts desk.old file.now)
        (seen (left_of D.reads texts) D.faults K.written K.faults desk.old out.old)
        (seen (left_of D.reads texts) D.faults K.written K.faults desk.new out.new)
        result }
    ensures others { (other : List ℕ) → other ≢ file.now → StaysUnread (D.reads desk.old) (D.reads desk.new) other }
    ensures calls { MakesCalls at_the_end (file.now ∷ []) (D.reads desk.old) (D.reads desk.new) (K.written out.old) (K.written out.new) result }
    ensures counts { (other : List ℕ) → D.faults desk.old other ≤ D.faults desk.new other }
{
    match check_proof(alloc, list, table, desk, file, buffer, read) {
        Ok(valid) => answered(
            is_equal(&valid.shown),
            write_valid(list, table, &valid, out),
        ),
        Err(Stop::Wrong(wrong)) => answered(false, write_wrong(wrong, out)),
        Err(Stop::ReadFault) => Ending::ReadFault { file },
        Err(Stop::TooLong) => Ending::TooLong {
            file,
            limit: MOST_CERTIFICATE_BYTES,
        },
        Err(Stop::Memory) => Ending::Memory,
    }
}
