//! A proof that is completed where a search didn't find all of it.
ghost use Rattle.std.specs.Prelude.{◌≡◌, IfOk};
ghost use Rattle.agreement_check.specs.Claims.{bound_of};
ghost use Rattle.agreement_check.specs.Verdict.{IsValid};
ghost use Rattle.table_equiv.specs.Found.{IsFound};
ghost use Rattle.agreement_proof.specs.Outcome.{values_of};

use crate::claims::{put_entries, put_rules};
use crate::comparing::shown_by;
use crate::lines::{put_end, put_heading};
use crate::pairs::{Reaches, put_pairs};
use crate::proving::Written;
use agreement_check::laws::right_proofs_are_valid;
use agreement_check::{Sides, Valid};
use agreement_search::Found;
use field_boxes::{Header, RuleList};
use razor_limits::Memory;
use std::alloc::Global;
use ternary_words::{Table, key};

/// The key from which on headers are late.
fn bound_of(header: Option<Header>) -> u128
    ensures { result ≡ bound_of (values_of header) }
{
    match header {
        Some(header) => key(header.values),
        None => 1 << 104,
    }
}

/// The proof of what the descent found, with those claims of the search that hold.
pub(crate) fn completed(
    alloc: Global,
    list: &RuleList,
    table: &Table,
    found: &Found,
    header: Option<Header>,
) -> Result<Written, Memory>
    requires { IsFound list.now table.now header }
    ensures { IfOk result (λ w. IsValid list.now table.now w.text.items w.valid) }
{
    right_proofs_are_valid();
    let sides = Sides {
        list,
        table,
        bound: bound_of(header),
    };
    let mut text = Vec::new(alloc);
    put_heading(&mut text, &sides, header)?;
    let entries = put_entries(alloc, &mut text, &sides, &found.entries)?;
    let rules = put_rules(alloc, &mut text, &sides, &found.rules)?;
    let reaches = Reaches { entries, rules };
    let pairs = put_pairs(alloc, &mut text, &sides, found, &reaches)?;
    put_end(&mut text, pairs)?;
    let shown = shown_by(list, table, header);
    Ok(Written {
        text,
        valid: Valid { shown, pairs },
    })
}
