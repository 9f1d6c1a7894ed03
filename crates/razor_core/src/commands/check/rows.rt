//! Certificates of rows: their check, and how what it comes to is written.
ghost use Rattle.std.specs.Prelude.{◌≡◌, ◌≢◌, ◌≤◌, ◌∷◌, ◌++◌, [], ℕ, List, IsTrue, length, take, false};
ghost use Rattle.razor_limits.specs.declared.limits.TheConstants.{BUFFER_BYTES};
ghost use Rattle.razor_base.specs.Headline.Outcomes.{Extends};
ghost use Rattle.razor_base.specs.Output.{Writes};
ghost use Rattle.razor_base.specs.Texts.{StaysUnread, left_of};
ghost use Rattle.partition_check.specs.Agreement.{HaveNames};
ghost use Rattle.partition_check.specs.Checking.{begun};
ghost use Rattle.razor_core.specs.PossibleTexts.{MayBeTexts};
ghost use Rattle.razor_core.specs.Calls.{MakesCalls, WritesBehind};
ghost use Rattle.razor_core.specs.Commands.Check.{IsEndBy, row_line, valid_line, wrong_line};
ghost use Rattle.razor_core.specs.Front.{EndsBehind};
ghost use Rattle.razor_core.specs.Meaning.{at_the_end};
ghost use Rattle.razor_core.specs.Outside.{seen};

use crate::commands::check::front::Front;
use crate::ending::{Ending, answered};
use field_boxes::RuleList;
use partition_check::{Checker, Stop, Why, Wrong, check_stream, check_whole};
use razor_base::limits::MOST_CERTIFICATE_BYTES;
use razor_base::{Desk, Failed, Part, Sink, write_parts};
use std::alloc::Global;
use ternary_words::Table;

/// Writes how many rows a valid certificate has.
fn write_valid<K: Sink>(rows: u64, out: &mut K) -> Result<(), Failed>
    ensures { Writes K.written K.faults out.old out.new (valid_line rows) result }
{
    write_parts(
        out,
        &[
            Part::Text("valid rows="),
            Part::Number(u128::from(rows)),
            Part::Text("\n"),
        ],
    )
}

/// Writes which row is wrong, and why.
fn write_wrong<'a, K: Sink>(
    list: &'a RuleList,
    table: &'a Table,
    wrong: Wrong,
    out: &mut K,
) -> Result<(), Failed>
    requires { HaveNames list.now table.now wrong.why }
    ensures { Writes K.written K.faults out.old out.new (wrong_line list.now table.now wrong) result }
{
    match wrong.why {
        Why::Form => write_reason(wrong.row, "form", out),
        Why::NotNext => write_reason(wrong.row, "not the next box", out),
        Why::RuleClaim => write_reason(wrong.row, "rule claim", out),
        Why::EntryClaim => write_reason(wrong.row, "entry claim", out),
        Why::EndsEarly => write_reason(wrong.row, "ends early", out),
        Why::Decisions { left, right } => write_parts(
            out,
            &[
                Part::Text("wrong row "),
                Part::Number(u128::from(wrong.row)),
                Part::Text(": decisions differ, "),
                Part::Text(list.names.name(left)),
                Part::Text(" "),
                Part::Text(table.names.name(right)),
                Part::Text("\n"),
            ],
        ),
        Why::Count { stated, found } => write_parts(
            out,
            &[
                Part::Text("wrong row "),
                Part::Number(u128::from(wrong.row)),
                Part::Text(": count differs, stated "),
                Part::Number(u128::from(stated)),
                Part::Text(" found "),
                Part::Number(u128::from(found)),
                Part::Text("\n"),
            ],
        ),
    }
}

/// Writes that the row is wrong for a reason of these words.
fn write_reason<K: Sink>(row: u64, words: &'static str, out: &mut K) -> Result<(), Failed>
    ensures { Writes K.written K.faults out.old out.new (row_line row (words.now ++ 10 ∷ [])) result }
{
    write_parts(
        out,
        &[
            Part::Text("wrong row "),
            Part::Number(u128::from(row)),
            Part::Text(": "),
            Part::Text(words),
            Part::Text("\n"),
        ],
    )
}

/// Checks the certificate, of which the front was read, by the checker of the list and the table.
#[inline(never)]
fn check_by<'a, D: Desk, K: Sink>(
    checker: Checker<'_>,
    list: &RuleList,
    table: &Table,
    file: &'a str,
    desk: &mut D,
    buffer: &mut [u8],
    read: usize,
    out: &mut K,
) -> Ending<'a>
    requires checker { checker ≡ begun list.now table.now }
    requires buffer { length buffer.old ≡ BUFFER_BYTES }
    requires read { read ≤ length buffer.old }
    ensures ends { (texts : List ℕ → List ℕ) → MayBeTexts (D.reads desk.new) texts → IsEndBy false list.now table.now file.now
        (take read buffer.old ++ left_of D.reads texts desk.old file.now)
        (seen (left_of D.reads texts) D.faults K.written K.faults desk.old out.old)
        (seen (left_of D.reads texts) D.faults K.written K.faults desk.new out.new)
        result }
    ensures others { (other : List ℕ) → other ≢ file.now → StaysUnread (D.reads desk.old) (D.reads desk.new) other }
    ensures calls { MakesCalls at_the_end (file.now ∷ []) (D.reads desk.old) (D.reads desk.new) (K.written out.old) (K.written out.new) result }
    ensures counts { (other : List ℕ) → D.faults desk.old other ≤ D.faults desk.new other }
{
    match check_stream(checker, desk, file, buffer, read) {
        Ok(rows) => answered(true, write_valid(rows, out)),
        Err(Stop::Wrong(wrong)) => answered(false, write_wrong(list, table, wrong, out)),
        Err(Stop::ReadFault) => Ending::ReadFault { file },
        Err(Stop::TooLong) => Ending::TooLong {
            file,
            limit: MOST_CERTIFICATE_BYTES,
        },
    }
}

/// Checks the certificate that is there whole, by the checker of the list and the table.
fn check_little<'a, K: Sink>(
    checker: Checker<'_>,
    list: &RuleList,
    table: &Table,
    text: &[u8],
    out: &mut K,
) -> Ending<'a>
    requires checker { checker ≡ begun list.now table.now }
    requires little { length text.now ≤ BUFFER_BYTES }
    ensures ends { (name : List ℕ) (remaining : List ℕ → List ℕ) (faults : List ℕ → ℕ) → remaining name ≡ [] → IsEndBy false list.now table.now name text.now
        (record { remaining = remaining; read_faults = faults; written = K.written out.old; write_faults = K.faults out.old })
        (record { remaining = remaining; read_faults = faults; written = K.written out.new; write_faults = K.faults out.new })
        result }
    ensures writes { Extends (K.written out.old) (K.written out.new) (WritesBehind result) }
{
    match check_whole(checker, text) {
        Ok(rows) => answered(true, write_valid(rows, out)),
        Err(wrong) => answered(false, write_wrong(list, table, wrong, out)),
    }
}

/// Checks the certificate, of which the front was read, unless memory is refused for a checker.
pub(crate) fn check_rows<'a, D: Desk, K: Sink>(
    alloc: Global,
    list: &RuleList,
    table: &Table,
    file: &'a str,
    desk: &mut D,
    buffer: &mut [u8],
    front: Front,
    out: &mut K,
) -> Ending<'a>
    requires buffer { length buffer.old ≡ BUFFER_BYTES }
    requires read { front.read ≤ length buffer.old }
    ensures ends { (texts : List ℕ → List ℕ) → MayBeTexts (D.reads desk.new) texts → (IsTrue front.whole → left_of D.reads texts desk.old file.now ≡ []) → IsEndBy false list.now table.now file.now
        (take front.read buffer.old ++ left_of D.reads texts desk.old file.now)
        (seen (left_of D.reads texts) D.faults K.written K.faults desk.old out.old)
        (seen (left_of D.reads texts) D.faults K.written K.faults desk.new out.new)
        result }
    ensures others { (other : List ℕ) → other ≢ file.now → StaysUnread (D.reads desk.old) (D.reads desk.new) other }
    ensures calls { EndsBehind file.now front.whole (D.reads desk.old) (D.reads desk.new) (K.written out.old) (K.written out.new) result }
    ensures counts { (other : List ℕ) → D.faults desk.old other ≤ D.faults desk.new other }
{
    let Ok(checker) = Checker::any(alloc, list, table) else {
        return Ending::Memory;
    };
    if front.whole {
        check_little(checker, list, table, &buffer[..front.read], out)
    } else {
        check_by(checker, list, table, file, desk, buffer, front.read, out)
    }
}
