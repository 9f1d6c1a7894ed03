//! Writing a proof.
ghost use Rattle.std.specs.Prelude.{IfOk};
ghost use Rattle.agreement_check.specs.Verdict.{IsValid};

use crate::comparing::MOST_WORDS;
use crate::completing::completed;
use crate::searched::accepted;
use agreement_check::Valid;
use agreement_search::find;
use field_boxes::RuleList;
use razor_limits::Memory;
use std::alloc::Global;
use table_equiv::first_difference;
use ternary_words::Table;

/// The text of a proof, and what it shows.
#[derive(Drop)]
pub struct Written {
    pub text: Vec<u8>,
    pub valid: Valid,
}

/// A proof that list and table decide every header alike, or of the least one that they don't.
pub fn prove(alloc: Global, list: &RuleList, table: &Table) -> Result<Written, Memory>
    ensures { IfOk result (λ w. IsValid list.now table.now w.text.items w.valid) }
{
    prove_within(alloc, list, table, MOST_WORDS)
}

/// The same, by a search that looks at about so many words, before a descent decides and the proof is completed.
pub fn prove_within(
    alloc: Global,
    list: &RuleList,
    table: &Table,
    words: u64,
) -> Result<Written, Memory>
    ensures { IfOk result (λ w. IsValid list.now table.now w.text.items w.valid) }
{
    let found = find(alloc, list, table, words)?;
    if let Some(written) = accepted(alloc, list, table, &found)? {
        return Ok(written);
    }
    let header = first_difference(alloc, list, table)?;
    completed(alloc, list, table, &found, header)
}
