//! Whether two tables answer alike.

ghost use Rattle.std.specs.Prelude.{IfOk};
ghost use Rattle.std.specs.Bool.{OnTrue};
ghost use Rattle.field_boxes.specs.Alike.{AreAlike};
ghost use Rattle.ternary_words.specs.Entries.{answer};
ghost use Rattle.table_steps.specs.Exchange.{AreSame, IsCommonEnd};

use crate::exchange::can_exchange;
use razor_limits::Memory;
use std::alloc::Global;
use ternary_words::Entry;

/// Whether the new table answers every header as the table does; no where that isn't seen.
///
/// What stands before their longest common end is compared, entry by entry (`can_exchange`).
pub fn answers_alike(
    alloc: Global,
    table: &[Entry],
    new: &[Entry],
    budget: u32,
) -> Result<bool, Memory>
    ensures { IfOk result (λ yes. OnTrue yes (AreAlike (answer new.now) (answer table.now))) }
{
    let common = common_end(table, new);
    let count = table.len() - common;
    can_exchange(alloc, table, count, &new[..new.len() - common], budget)
}

/// How many of the last entries are the same.
fn common_end(table: &[Entry], new: &[Entry]) -> usize
    ensures { IsCommonEnd table.now new.now result }
{
    let least = table.len().min(new.len());
    for count in 0..least {
        if !is_same(&table[table.len() - 1 - count], &new[new.len() - 1 - count]) {
            return count;
        }
    }
    least
}

/// Whether the entries have the same word and decision.
fn is_same(one: &Entry, other: &Entry) -> bool
    ensures { OnTrue result (AreSame one.now other.now) }
{
    one == other
}
