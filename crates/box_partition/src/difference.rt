//! Where a list and a table first differ, by the names that they give.
ghost use Rattle.std.specs.Prelude.{IfOk};
ghost use Rattle.field_boxes.specs.Lists.{name_decided};
ghost use Rattle.partition_check.specs.Agreement.{name_answered};
ghost use Rattle.partition_check.specs.PrefixWords.{ArePrefixes};
ghost use Rattle.list_equiv.specs.Verdict.{IsVerdict};

use crate::standing::entries_by_number;
use field_boxes::RuleList;
use list_equiv::{Verdict, compare};
use partition_check::laws::first_matches_decide;
use razor_base::Memory;
use std::alloc::Global;
use ternary_words::Table;

/// Whether list and table give every header one name, or on which they first differ.
pub(crate) fn differ(alloc: Global, list: &RuleList, table: &Table) -> Result<Verdict, Memory>
    requires { ArePrefixes table.now.entries.items }
    ensures { IfOk result (λ verdict. IsVerdict list.now.names table.now.names (name_decided list.now) (name_answered table.now) verdict) }
{
    first_matches_decide();
    let entries = entries_by_number(alloc, &table.entries)?;
    let verdict = compare(alloc, &list.rules, &list.names, &entries, &table.names)?;
    Ok(verdict)
}
