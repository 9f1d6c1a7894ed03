//! The entries that stay of the table of a diagram.
ghost use Rattle.std.specs.Prelude.{◌≡◌, ◌∷◌, [], slice_index_or, take, drop, OnOk, false};
ghost use Rattle.field_boxes.specs.Headline.Fields.{stated};
ghost use Rattle.node_store.specs.Diagram.{answer as diagram_answer, level_of};
ghost use Rattle.table_compose.specs.Composed.{HaveCosts, HaveLists, boxes};
ghost use Rattle.redundancy.specs.Kept.{GainsFlagged};
ghost use Rattle.node_store.specs.Levels.{IsLevel};
ghost use Rattle.ternary_words.specs.Prefixes.{FitFields};
ghost use Rattle.table_compose.specs.Rows.{rows_at};

use crate::blocks::after;
use crate::sifting::layer::is_some_kept;
use field_boxes::Prefix;
use node_store::{NodeId, Store};
use razor_limits::Memory;
use table_compose::Plans;
use ternary_words::{Entry, Word};

/// Adds the flagged entries of the table of a node: for each row of its list, in turn, those of the table of the row's
/// node, with the row's prefix in the node's field and the prefixes of the fields before it as they are. Tables of which
/// nothing stays are passed over.
pub(crate) fn add_kept(
    store: &Store,
    plans: &Plans,
    level: &[u8],
    prefixes: [Prefix; 5],
    id: NodeId,
    flags: &[bool],
    entries: &mut Vec<Entry>,
) -> Result<(), Memory>
    requires level { IsLevel level.now }
    requires at { level_of store.now id.0 ≡ level.now }
    requires lists { HaveLists store.now (rows_at plans.now.lists.items) level.now id.0 }
    requires costs { HaveCosts store.now (rows_at plans.now.lists.items) plans.now.costs.items level.now id.0 }
    requires fit { FitFields stated prefixes }
    ensures { OnOk result (GainsFlagged level.now prefixes entries.old.items entries.new.items (boxes store.now (rows_at plans.now.lists.items) level.now id.0) flags.now) }
{
    store.same_answers();
    if !is_some_kept(flags) {
        return Ok(());
    }
    if level.is_empty() {
        return add_leaf(store, &prefixes, id, flags, entries);
    }
    let below = after(level);
    let rows = plans.rows(id);
    let mut rest = flags;
    for row in rows {
        let (own, others) = parted(rest, plans.cost(row.to));
        let mut longer = prefixes;
        longer[usize::from(level[0])] = row.prefix;
        add_kept(store, plans, below, longer, row.to, own, entries)?;
        rest = others;
    }
    Ok(())
}

/// Adds the entry of a leaf under a prefix in each field, if the first flag says so.
fn add_leaf(
    store: &Store,
    prefixes: &[Prefix; 5],
    id: NodeId,
    flags: &[bool],
    entries: &mut Vec<Entry>,
) -> Result<(), Memory>
    requires leaf { level_of store.now id.0 ≡ [] }
    requires fit { FitFields stated prefixes.now }
    ensures { OnOk result (GainsFlagged [] prefixes.now entries.old.items entries.new.items (record { prefixes = []; decision = diagram_answer store.now id.0 [] } ∷ []) flags.now) }
{
    store.same_answers();
    if !is_first_kept(flags) {
        return Ok(());
    }
    entries.push(Entry {
        word: Word::of(prefixes),
        decision: store.decision(id).unwrap_or(0),
    })?;
    Ok(())
}

/// The first flag; where there is none, it isn't set.
fn is_first_kept(flags: &[bool]) -> bool
    ensures { result ≡ slice_index_or flags.now 0 false }
{
    match flags {
        [first, ..] => *first,
        [] => false,
    }
}

/// So many flags at the front, or all where they are fewer, and the others.
fn parted(flags: &[bool], count: u128) -> (&[bool], &[bool])
    ensures front { result.0.now ≡ take count flags.now }
    ensures others { result.1.now ≡ drop count flags.now }
{
    let most = flags.len() as u128;
    flags.split_at(count.min(most) as usize)
}
