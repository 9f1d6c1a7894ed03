//! The table of an expansion, within a limit.
ghost use Rattle.std.specs.Prelude.{◌≡◌, ◌≤◌, All, IfOk, MatchResult, length};
ghost use Rattle.razor_limits.specs.declared.limits.TheConstants.{MOST_RULES};
ghost use Rattle.field_boxes.specs.NamedRules.{IsNumberedBy, named_rules};
ghost use Rattle.ternary_words.specs.Views.{table_of};
ghost use Rattle.rule_expansion.specs.Expansion.{expanded_count};
ghost use Rattle.rule_expansion.specs.declared.expanding.ExpandError.TheVariants.{Memory as RefusedMemory};
ghost use Rattle.rule_expansion.specs.Tables.{IsExpansion, IsRefused};

use crate::counting::entry_count;
use crate::entries::expanded_entries;
use crate::laws::{decided_words_are_entries, expansion_answers};
use field_boxes::{Decisions, Rule};
use razor_limits::Memory;
use std::alloc::{AllocError, Global};
use ternary_words::{Limit, SlotWidth, Table};
use thiserror::Error;

/// Why rules were not expanded.
#[derive(Clone, Copy, Debug, PartialEq, Eq, Error)]
pub enum ExpandError {
    /// More entries are needed than the limit.
    #[error("{needed} entries needed, limit {limit}")]
    TooMany { needed: u128, limit: u32 },
    /// Memory was refused.
    #[error("out of memory")]
    Memory,
}

impl From<Memory> for ExpandError {
    ghost from_gives = { λ _ e. e ≡ RefusedMemory };

    fn from(_refused: Memory) -> Self {
        ExpandError::Memory
    }
}

/// The table with the entries of the rules, in order, for slots of the width.
///
/// The entries are counted before any is made, so a number above the limit takes no memory. Time and
/// memory go by the number of entries.
pub fn expand(
    alloc: Global,
    rules: &[Rule],
    names: &Decisions,
    limit: Limit,
    slot: SlotWidth,
) -> Result<Table, ExpandError>
    requires few { length rules.now ≤ MOST_RULES }
    requires numbered { All (IsNumberedBy names.now) rules.now }
    ensures table { MatchResult result
        (λ table. IsExpansion (named_rules names.now rules.now) slot.bits (table_of table))
        (λ e. IsRefused (named_rules names.now rules.now) limit.count e) }
    ensures names { IfOk result (λ table. table.names ≡ names.now) }
    ensures room { IfOk result (λ table. expanded_count (named_rules names.now rules.now) ≤ limit.count) }
{
    let limit = limit.count;
    let needed = entry_count(rules);
    if needed > u128::from(limit) {
        return Err(ExpandError::TooMany { needed, limit });
    }
    expansion_answers();
    decided_words_are_entries();
    let entries = expanded_entries(alloc, rules)?;
    let names = names.copy(alloc)?;
    Ok(Table {
        slot,
        composed: needed as u32,
        entries,
        names,
    })
}
