//! The composed table of a diagram.
ghost use Rattle.std.specs.Prelude.{◌≡◌, ◌≤◌, ◌<◌, ℕ, List, Some, All, length, slice_index, vec_len, IfOk, IfErr};
ghost use Rattle.std.specs.List.{AllZip};
ghost use Rattle.field_boxes.specs.Headline.Fields.{IsHeader};
ghost use Rattle.node_store.specs.Levels.{IsLevel};
ghost use Rattle.node_store.specs.Diagram.{level_of, answer};
ghost use Rattle.table_compose.specs.declared.composition.ComposeError.TheVariants.{Memory as OutOfMemory};
ghost use Rattle.table_compose.specs.Diagrams.{IsCostOf};
ghost use Rattle.table_compose.specs.Rows.{rows_at};
ghost use Rattle.table_compose.specs.Composed.{HaveCosts, HaveLists, IsPlaced, open_all, boxes, AreComposed, decided, IsAnswer, IsPrefixWord, IsRefusal};
ghost use Rattle.field_boxes.specs.Orders.{picked, AreDistinct};

use crate::diagram_plans::Plans;
use crate::entries::add_table;
use field_boxes::Prefix;
use node_store::{NodeId, Store};
use razor_limits::Memory;
use std::alloc::Global;
use ternary_words::Entry;
use thiserror::Error;

/// Why no table was composed.
#[derive(Clone, Copy, Debug, PartialEq, Eq, Error)]
pub enum ComposeError {
    /// The diagram costs more entries than the limit.
    #[error("{needed} entries needed, limit {limit}")]
    TooMany { needed: u128, limit: u32 },
    /// Memory was refused.
    #[error("memory was refused")]
    Memory,
}

impl From<Memory> for ComposeError {
    ghost from_gives = { λ _ e. e ≡ OutOfMemory };

    fn from(_refused: Memory) -> Self {
        ComposeError::Memory
    }
}

/// The whole of each field.
const OPEN: [Prefix; 5] = [Prefix { value: 0, len: 0 }; 5];

/// A table of as few entries as the field-by-field least cost, where that is within the limit.
///
/// Entries that decide 0 stay: without them a header would fall through to a later entry. The cost is known
/// before the first entry is written, so a refusal takes no more than [`cost`] does, and else time and room
/// go by the diagram and by the entries.
///
/// [`cost`]: crate::cost
pub fn compose(
    alloc: Global,
    store: &Store,
    order: &[u8],
    root: NodeId,
    limit: u32,
) -> Result<Vec<Entry>, ComposeError>
    requires order { IsLevel order.now }
    requires apart { AreDistinct order.now }
    requires root { level_of store.now root.0 ≡ order.now }

    // As many entries as the least cost, which is within the limit.
    ensures count { IfOk result (λ entries. IsCostOf store.now order.now root.0 (vec_len entries)) }
    ensures within { IfOk result (λ entries. vec_len entries ≤ limit) }

    // Every header has a first entry that matches it, with the diagram's answer.
    ensures answers { IfOk result (λ entries. (header : List ℕ) → IsHeader header →
        decided entries.items header ≡ Some (answer store.now root.0 (picked order.now header))) }
    // Each entry decides what the diagram answers on some header.
    ensures decisions { IfOk result (λ entries. All (λ e. IsAnswer store.now order.now root.0 e.decision) entries.items) }
    ensures prefixes { IfOk result (λ entries. All (λ e. IsPrefixWord e.word) entries.items) }
    ensures composed { IfOk result (λ entries. AreComposed store.now order.now root.0 entries.items) }
    ensures refusal { IfErr result (λ e. IsRefusal store.now order.now root.0 limit e) }
{
    store.same_answers();
    let plans = plans_within(alloc, store, order, root, limit)?;
    let entries = table(alloc, store, order, &plans, root, plans.cost(root) as usize)?;
    Ok(entries)
}

/// What each node of the diagram costs, and its prefix list, where the diagram costs no more than the limit.
fn plans_within(
    alloc: Global,
    store: &Store,
    order: &[u8],
    root: NodeId,
    limit: u32,
) -> Result<Plans, ComposeError>
    requires order { IsLevel order.now }
    requires root { level_of store.now root.0 ≡ order.now }

    ensures lists { IfOk result (λ plans. HaveLists store.now (rows_at plans.lists.items) order.now root.0) }
    // A node costs what the nodes of its rows cost together, and a leaf one entry.
    ensures costs { IfOk result (λ plans. HaveCosts store.now (rows_at plans.lists.items) plans.costs.items order.now root.0) }
    ensures room { IfOk result (λ plans. root.0 < length plans.costs.items) }
    ensures least { IfOk result (λ plans. IsCostOf store.now order.now root.0 (slice_index plans.costs.items root.0)) }
    ensures within { IfOk result (λ plans. slice_index plans.costs.items root.0 ≤ limit) }
    ensures refusal { IfErr result (λ e. IsRefusal store.now order.now root.0 limit e) }
{
    let mut plans = Plans::new(alloc);
    plans.learn(alloc, store, order, root, limit)?;
    Ok(plans)
}

/// The entries of the diagram's table, for which room is made at once.
fn table(
    alloc: Global,
    store: &Store,
    order: &[u8],
    plans: &Plans,
    root: NodeId,
    count: usize,
) -> Result<Vec<Entry>, Memory>
    requires order { IsLevel order.now }
    requires level { level_of store.now root.0 ≡ order.now }
    requires lists { HaveLists store.now (rows_at plans.now.lists.items) order.now root.0 }
    ensures { IfOk result (λ entries. AllZip (IsPlaced order.now open_all) (boxes store.now (rows_at plans.now.lists.items) order.now root.0) entries.items) }
{
    let mut entries = Vec::with_capacity(alloc, count)?;
    add_table(store, plans, order, OPEN, root, &mut entries)?;
    Ok(entries)
}
