//! The entries of a diagram's table.
ghost use Rattle.std.specs.Prelude.{◌≡◌, ◌∷◌, [], OnOk};
ghost use Rattle.field_boxes.specs.Headline.Fields.{stated};
ghost use Rattle.node_store.specs.Levels.{IsLevel};
ghost use Rattle.node_store.specs.Diagram.{level_of, answer};
ghost use Rattle.ternary_words.specs.Prefixes.{FitFields};
ghost use Rattle.table_compose.specs.Rows.{rows_at};
ghost use Rattle.table_compose.specs.Composed.{HaveLists, Gains, boxes};

use crate::diagram_plans::Plans;
use field_boxes::Prefix;
use node_store::{NodeId, Store};
use razor_limits::Memory;
use ternary_words::{Entry, Word};

/// Adds the table of a node: for each row of its list, in turn, the table of the row's node, with the row's
/// prefix in the node's field and the prefixes of the fields before it as they are.
pub(crate) fn add_table(
    store: &Store,
    plans: &Plans,
    level: &[u8],
    prefixes: [Prefix; 5],
    id: NodeId,
    entries: &mut Vec<Entry>,
) -> Result<(), Memory>
    requires level { IsLevel level.now }
    requires at { level_of store.now id.0 ≡ level.now }
    requires lists { HaveLists store.now (rows_at plans.now.lists.items) level.now id.0 }
    requires fit { FitFields stated prefixes }
    ensures { OnOk result (Gains level.now prefixes entries.old.items entries.new.items (boxes store.now (rows_at plans.now.lists.items) level.now id.0)) }
{
    store.same_answers();
    if level.is_empty() {
        add_leaf(store, &prefixes, id, entries)?;
        return Ok(());
    }
    for row in plans.lists[id.0 as usize].as_slice() {
        let mut longer = prefixes;
        longer[usize::from(level[0])] = row.prefix;
        add_table(store, plans, &level[1..], longer, row.to, entries)?;
    }
    Ok(())
}

/// Adds the entry of a leaf under a prefix in each field.
fn add_leaf(
    store: &Store,
    prefixes: &[Prefix; 5],
    id: NodeId,
    entries: &mut Vec<Entry>,
) -> Result<(), Memory>
    requires leaf { level_of store.now id.0 ≡ [] }
    requires fit { FitFields stated prefixes.now }
    ensures { OnOk result (Gains [] prefixes.now entries.old.items entries.new.items (record { prefixes = []; decision = answer store.now id.0 [] } ∷ [])) }
{
    entries.push(Entry {
        word: Word::of(prefixes),
        decision: store.decision(id).unwrap_or(0),
    })?;
    Ok(())
}
