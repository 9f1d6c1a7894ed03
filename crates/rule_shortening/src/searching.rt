//! The search over a table.
ghost use Rattle.std.specs.Prelude.{IfOk};
ghost use Rattle.rule_shortening.specs.Drafts.{AreAsShort};

use crate::checked::are_as_short;
use razor_limits::Memory;
use std::alloc::Global;
use table_search::Shortening;
use ternary_words::Entry;

/// Rounds of the search at most.
const ROUNDS: u32 = 64;

/// The shortest table that the search finds from `start` on and covers show to answer as the table does.
///
/// Tables are checked from the last one on, so mostly one is.
pub(crate) fn searched(
    alloc: Global,
    table: Vec<Entry>,
    start: &[Entry],
    count: u32,
) -> Result<Vec<Entry>, Memory>
    ensures { IfOk result (λ kept. AreAsShort count table.items kept.items) }
{
    let mut found = found(alloc, start)?;
    for _ in 0..ROUNDS {
        let Some(new) = found.pop() else {
            return Ok(table);
        };
        if are_as_short(alloc, table.as_slice(), new.as_slice(), count)? {
            return Ok(new);
        }
    }
    Ok(table)
}

/// The tables that the search finds from this one on, one a round, each as short as the one before or shorter.
fn found(alloc: Global, table: &[Entry]) -> Result<Vec<Vec<Entry>>, Memory> {
    let mut search = Shortening::new(alloc, table)?;
    let mut found = Vec::new(alloc);
    for _ in 0..ROUNDS {
        let again = search.round()?;
        found.push(search.entries()?)?;
        if !again {
            break;
        }
    }
    Ok(found)
}
