//! `cert`: the certificate that a list and a table decide every header alike.
ghost use Rattle.std.specs.Prelude.{◌≢◌, ℕ, List, [], ◌∷◌, ◌≡◌};
ghost use Rattle.razor_base.specs.Headline.Outcomes.{Extends};
ghost use Rattle.razor_base.specs.Texts.{StaysUnread, left_of};
ghost use Rattle.razor_core.specs.PossibleTexts.{MayBeTexts};
ghost use Rattle.razor_core.specs.Behind.{EndsOver};
ghost use Rattle.razor_core.specs.Commands.Cert.{certifying, IsCertified};
ghost use Rattle.razor_core.specs.Outside.{seen, Adds, Outside};
ghost use Rattle.razor_core.specs.Ending.{Ends};
ghost use Rattle.razor_core.specs.Taking.{table_value_of, value_of};
ghost use Rattle.razor_core.specs.Promise.{KeepsPromise};
ghost use Rattle.razor_core.specs.Calls.{MakesCalls, WritesBehind};
ghost use Rattle.razor_core.specs.Meaning.{by_lines};

use crate::commands::difference::write_difference;
use crate::ending::{Ending, Summary};
use crate::line_reason::LineReason;
use crate::taking::take;
use crate::texts::{ListText, TableText};
use box_partition::{CertError, write_certificate};
use command_words::TwoFiles;
use field_boxes::RuleList;
use razor_base::{Desk, Sink};
use std::alloc::Global;
use ternary_words::Table;

/// Writes the certificate of the list and the table, or the least header on which they differ, and says how the
/// command ends.
fn certify_both<'a, K: Sink>(
    alloc: Global,
    list: &RuleList,
    table: &Table,
    file: &'a str,
    out: &mut K,
) -> Ending<'a>
    ensures ends { (first : List ℕ) → EndsOver (certifying first file.now) (value_of list.now ∷ table_value_of table.now ∷ [])
        (K.written out.old) (K.written out.new) (K.faults out.old) (K.faults out.new) result }
    ensures writes { Extends (K.written out.old) (K.written out.new) (WritesBehind result) }
{
    match write_certificate(alloc, list, table, out) {
        Ok(_) => Ending::Done(Summary::Nothing),
        Err(CertError::NotPrefix { entry }) => Ending::BadLine {
            file,
            line: u64::from(entry) + 2,
            reason: LineReason::NotPrefix,
        },
        Err(
            CertError::Differs {
                header,
                left,
                right,
            },
        ) => {
            let left = list.names.name(left);
            let right = table.names.name(right);
            match write_difference(&header, left, right, out) {
                Ok(()) => Ending::No,
                Err(_) => Ending::WriteFault,
            }
        }
        Err(CertError::Fault) => Ending::WriteFault,
        Err(CertError::Memory) => Ending::Memory,
    }
}

/// Writes the certificate that list and table decide every header alike, or the least header on which they differ.
#[inline(never)]
pub(crate) fn certify<'a, D: Desk, K: Sink>(
    alloc: Global,
    files: TwoFiles<'a>,
    desk: &mut D,
    out: &mut K,
) -> Ending<'a>
    ensures ends { (texts : List ℕ → List ℕ) → MayBeTexts (D.reads desk.new) texts → Ends (certifying files.entry.first.now files.entry.second.now)
        (seen (left_of D.reads texts) D.faults K.written K.faults desk.old out.old)
        (seen (left_of D.reads texts) D.faults K.written K.faults desk.new out.new)
        result }
    ensures others { (other : List ℕ) → other ≢ files.entry.first.now → other ≢ files.entry.second.now → StaysUnread (D.reads desk.old) (D.reads desk.new) other }
    ensures calls { MakesCalls by_lines (files.entry.first.now ∷ files.entry.second.now ∷ []) (D.reads desk.old) (D.reads desk.new) (K.written out.old) (K.written out.new) result }
{
    let list = match take(alloc, &ListText, files.first, desk) {
        Ok(list) => list,
        Err(ending) => return ending,
    };
    let table = match take(alloc, &TableText, files.second, desk) {
        Ok(table) => table,
        Err(ending) => return ending,
    };
    certify_both(alloc, &list, &table, files.second, out)
}

/// What `cert` has written is the one good and coarsest certificate of the list and the table.
pub fn certificates_are_those_of_list_and_table()
    ensures { (before after : Outside) (line : List ℕ) (list table first second : List ℕ) →
        KeepsPromise (certifying list table) before after line 0 → before.remaining list ≡ first → before.remaining table ≡ second →
        Adds before after (IsCertified first second) }
{}
