//! Whether a list and a table decide alike.
ghost use Rattle.std.specs.Prelude.{IfOk};
ghost use Rattle.agreement_check.specs.Verdict.{IsShown};
ghost use Rattle.table_equiv.specs.Found.{IsFound};
ghost use Rattle.agreement_proof.specs.Outcome.{IsAnswer, values_of};

use crate::searched::accepted;
use agreement_check::{Shown, Sides};
use agreement_search::find;
use field_boxes::{Header, RuleList};
use razor_limits::Memory;
use std::alloc::Global;
use table_equiv::first_difference;
use ternary_words::Table;

/// How many words a search looks at, at most.
pub(crate) const MOST_WORDS: u64 = 1 << 36;

/// What is so where this is the least header on which list and table give other names, or none is.
pub(crate) fn shown_by(list: &RuleList, table: &Table, header: Option<Header>) -> Shown
    requires { IsFound list.now table.now header }
    ensures answer { IsAnswer list.now table.now result }
    ensures shown { IsShown list.now table.now (values_of header) result }
{
    let Some(header) = header else {
        return Shown::Equal;
    };
    let sides = Sides {
        list,
        table,
        bound: 1 << 104,
    };
    match sides.difference_on(&header) {
        Some(difference) => Shown::Differ(difference),
        None => unreachable!(),
    }
}

/// Whether list and table decide every header alike, or the least one that they don't.
pub fn compare(alloc: Global, list: &RuleList, table: &Table) -> Result<Shown, Memory>
    ensures { IfOk result (IsAnswer list.now table.now) }
{
    compare_within(alloc, list, table, MOST_WORDS)
}

/// The same, by a search that looks at about so many words, before a descent decides.
pub fn compare_within(
    alloc: Global,
    list: &RuleList,
    table: &Table,
    words: u64,
) -> Result<Shown, Memory>
    ensures { IfOk result (IsAnswer list.now table.now) }
{
    let found = find(alloc, list, table, words)?;
    if let Some(written) = accepted(alloc, list, table, &found)? {
        return Ok(written.valid.shown);
    }
    let header = first_difference(alloc, list, table)?;
    Ok(shown_by(list, table, header))
}
