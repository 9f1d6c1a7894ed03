//! The text of what a search found. Nothing is promised of it: it is checked.
ghost use Rattle.std.specs.Prelude.{IfOk, IfSome};
ghost use Rattle.agreement_check.specs.Answers.{IsTrueOf};
ghost use Rattle.agreement_check.specs.Verdict.{IsValid};

use crate::lines::{put_end, put_entry, put_heading, put_pair, put_rule};
use crate::proving::Written;
use agreement_check::{Sides, Stop, check_text};
use agreement_search::{Found, Outcome};
use field_boxes::{Header, RuleList};
use razor_limits::Memory;
use std::alloc::Global;
use ternary_words::Table;

/// The header that the text states, if the search came to its end.
fn stated(found: &Found) -> Option<Option<Header>> {
    match found.outcome {
        Outcome::Equal => Some(None),
        Outcome::Differ(header) => Some(Some(header)),
        Outcome::Unknown => None,
    }
}

/// Puts the lines of all claims behind the text.
fn put_claims(text: &mut Vec<u8>, found: &Found) -> Result<(), Memory> {
    for place in 0..found.entries.len() {
        put_entry(text, found.entries.steps(place))?;
    }
    for place in 0..found.rules.len() {
        put_rule(text, found.rules.steps(place))?;
    }
    for (number, pair) in found.pairs.iter().enumerate() {
        put_pair(text, pair, found.of_pairs.steps(number))?;
    }
    put_end(text, found.pairs.len() as u64)
}

/// The text of what was found.
fn text_of(
    alloc: Global,
    list: &RuleList,
    table: &Table,
    found: &Found,
    header: Option<Header>,
) -> Result<Vec<u8>, Memory> {
    let sides = Sides {
        list,
        table,
        bound: 0,
    };
    let mut text = Vec::new(alloc);
    put_heading(&mut text, &sides, header)?;
    put_claims(&mut text, found)?;
    Ok(text)
}

/// The text of what was found, if it is valid.
pub(crate) fn accepted(
    alloc: Global,
    list: &RuleList,
    table: &Table,
    found: &Found,
) -> Result<Option<Written>, Memory>
    ensures valid { IfOk result (λ some. IfSome some (λ w. IsValid list.now table.now w.text.items w.valid)) }
    ensures is_true { IfOk result (λ some. IfSome some (λ w. IsTrueOf list.now table.now w.valid.shown)) }
{
    let Some(header) = stated(found) else {
        return Ok(None);
    };
    let text = text_of(alloc, list, table, found, header)?;
    match check_text(alloc, list, table, &text) {
        Ok(valid) => Ok(Some(Written { text, valid })),
        Err(Stop::Memory) => Err(Memory),
        Err(_) => Ok(None),
    }
}
