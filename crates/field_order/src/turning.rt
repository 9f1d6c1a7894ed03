//! Rows: where the values of a field lead from each of many nodes.
ghost use Rattle.std.specs.Prelude.{◌≡◌, ◌≤◌, ◌<◌, ◌^◌, ◌∷◌, ℕ, List, length, All, IfOk};
ghost use Rattle.field_boxes.specs.Fields.{greatest_of};
ghost use Rattle.node_store.specs.Levels.{HasField, next, top_of};
ghost use Rattle.node_store.specs.Edges.{AreFull, child_of};
ghost use Rattle.node_store.specs.Diagram.{Node, level_of, edges_of, answer};
ghost use Rattle.node_store.specs.Store.{Grows, LeadTo};
ghost use Rattle.field_order.specs.Fronts.{IsSample};

use crate::front::before;
use crate::row::{Edges, fill_row, greatest_in, splice_row};
use field_boxes::greatest;
use node_store::{Edge, NodeId, Store, edge_at};
use razor_limits::Memory;
use smallvec::SmallVec;
use std::alloc::Global;

/// How many edges are read for each row of a block.
const FEW: usize = 64;

/// How many edges of a node are read for each row: blocks of more take less time, but some room.
const MANY: usize = 512;

/// The edges of the field to nodes of the level, which lead from each value of its own field where the edges'
/// node leads from the value of the field.
///
/// Where the edges are many, those of a block of them are read for each row of that block alone, and a row is put together
/// of the blocks' rows.
pub(crate) fn rows(
    alloc: Global,
    store: &mut Store,
    level: &[u8],
    field: u8,
    edges: &[Edge],
) -> Result<Edges, Memory>
    requires level { HasField level.now }
    requires upper { HasField (field ∷ level.now) }
    requires field { HasField (field ∷ next level.now) }
    requires full { AreFull (top_of level.now) edges.now }
    requires nodes { LeadTo store.old (field ∷ next level.now) edges.now }
    ensures full { IfOk result (λ rows. AreFull (greatest_of field) rows.items) }
    ensures nodes { IfOk result (λ rows. LeadTo store.new level.now rows.items) }
    ensures answers { IfOk result (λ rows. (v u : ℕ) (values : List ℕ) → v ≤ greatest_of field → u ≤ top_of level.now →
        answer store.new (child_of rows.items v) (u ∷ values) ≡ answer store.old (child_of (edges_of store.old (child_of edges.now u)) v) values) }
    ensures grows { Grows store.old store.new }
{
    if edges.len() <= MANY {
        let rows = few_rows(alloc, store, level, field, edges)?;
        return Ok(rows);
    }
    let whole = blocks(alloc, store, level, field, edges)?;
    let rows = joined(alloc, store, level, field, whole.as_slice())?;
    Ok(rows)
}

/// The same, where each edge is read for each row.
fn few_rows(
    alloc: Global,
    store: &mut Store,
    level: &[u8],
    field: u8,
    edges: &[Edge],
) -> Result<Edges, Memory>
    requires level { HasField level.now }
    requires field { HasField (field ∷ next level.now) }
    requires full { AreFull (top_of level.now) edges.now }
    requires nodes { LeadTo store.old (field ∷ next level.now) edges.now }
    ensures full { IfOk result (λ rows. AreFull (greatest_of field) rows.items) }
    ensures nodes { IfOk result (λ rows. LeadTo store.new level.now rows.items) }
    ensures answers { IfOk result (λ rows. (v u : ℕ) (values : List ℕ) → v ≤ greatest_of field → u ≤ top_of level.now →
        answer store.new (child_of rows.items v) (u ∷ values) ≡ answer store.old (child_of (edges_of store.old (child_of edges.now u)) v) values) }
    ensures grows { Grows store.old store.new }
{
    store.same_answers();
    let top = u64::from(greatest(usize::from(field)));
    let mut places = vec![in alloc; 0; edges.len()]?;
    let mut cells = SmallVec::with_capacity(alloc, edges.len())?;
    let mut rows = SmallVec::new(alloc);
    let mut filled = 0u64;
    while filled <= top {
        let hi = fill_row(store, field, edges, &mut places, &mut cells, filled as u32)?;
        let to = store.make(level, cells.as_slice())?;
        rows.push(Edge { hi, to })?;
        filled = u64::from(hi) + 1;
    }
    Ok(rows)
}

/// Some of the rows, at least so many values apart: the edge to each ends at a value of its own.
pub(crate) fn samples(
    alloc: Global,
    store: &mut Store,
    level: &[u8],
    field: u8,
    edges: &[Edge],
    apart: u64,
) -> Result<Edges, Memory>
    requires level { HasField level.now }
    requires field { HasField (field ∷ next level.now) }
    requires full { AreFull (top_of level.now) edges.now }
    requires nodes { LeadTo store.old (field ∷ next level.now) edges.now }
    ensures samples { IfOk result (λ samples. All (IsSample store.old store.new level.now field edges.now) samples.items) }
    ensures few { IfOk result (λ samples. length samples.items ≤ 2 ^ 32) }
    ensures grows { Grows store.old store.new }
{
    store.same_answers();
    let top = u64::from(greatest(usize::from(field)));
    let mut places = vec![in alloc; 0; edges.len()]?;
    let mut cells = SmallVec::with_capacity(alloc, edges.len())?;
    let mut samples = SmallVec::new(alloc);
    let mut value = 0u64;
    while value <= top {
        let hi = fill_row(store, field, edges, &mut places, &mut cells, value as u32)?;
        let to = store.make(level, cells.as_slice())?;
        samples.push(Edge { hi, to })?;
        value = (u64::from(hi) + 1).max(value.saturating_add(apart));
    }
    Ok(samples)
}

/// Edges to nodes with the field in front, one for each block of the edges.
fn blocks(
    alloc: Global,
    store: &mut Store,
    level: &[u8],
    field: u8,
    edges: &[Edge],
) -> Result<Edges, Memory>
    requires level { HasField level.now }
    requires upper { HasField (field ∷ level.now) }
    requires field { HasField (field ∷ next level.now) }
    requires full { AreFull (top_of level.now) edges.now }
    requires nodes { LeadTo store.old (field ∷ next level.now) edges.now }
    ensures full { IfOk result (λ blocks. AreFull (top_of level.now) blocks.items) }
    ensures nodes { IfOk result (λ blocks. LeadTo store.new (field ∷ level.now) blocks.items) }
    ensures answers { IfOk result (λ blocks. (v u : ℕ) (values : List ℕ) → v ≤ greatest_of field → u ≤ top_of level.now →
        answer store.new (child_of blocks.items u) (v ∷ u ∷ values) ≡ answer store.old (child_of (edges_of store.old (child_of edges.now u)) v) values) }
    ensures grows { Grows store.old store.new }
{
    store.same_answers();
    let last = u64::from(greatest_in(level));
    let mut made = SmallVec::new(alloc);
    let mut filled = 0u64;
    while filled <= last {
        let edge = edge_of_block(alloc, store, level, field, edges, filled as u32)?;
        made.push(edge)?;
        filled = u64::from(edge.hi) + 1;
    }
    Ok(made)
}

/// The edge of the block that begins at the value.
fn edge_of_block(
    alloc: Global,
    store: &mut Store,
    level: &[u8],
    field: u8,
    edges: &[Edge],
    lo: u32,
) -> Result<Edge, Memory>
    requires level { HasField level.now }
    requires upper { HasField (field ∷ level.now) }
    requires field { HasField (field ∷ next level.now) }
    requires full { AreFull (top_of level.now) edges.now }
    requires nodes { LeadTo store.old (field ∷ next level.now) edges.now }
    requires within { lo ≤ top_of level.now }
    ensures low { IfOk result (λ edge. lo ≤ edge.hi) }
    ensures high { IfOk result (λ edge. edge.hi ≤ top_of level.now) }
    ensures level { IfOk result (λ edge. level_of store.new edge.to.0 ≡ field ∷ level.now) }
    ensures answers { IfOk result (λ edge. (v u : ℕ) (values : List ℕ) → v ≤ greatest_of field → lo ≤ u → u ≤ edge.hi →
        answer store.new edge.to.0 (v ∷ u ∷ values) ≡ answer store.old (child_of (edges_of store.old (child_of edges.now u)) v) values) }
    ensures grows { Grows store.old store.new }
{
    let block = next_block(alloc, edges, lo, greatest_in(level))?;
    let hi = block.hi;
    let to = turned(alloc, store, level, field, block.edges.as_slice())?;
    Ok(Edge { hi, to })
}

/// Some of a node's edges: they lead as the node up to a value, and the last of them leads on to the greatest value.
#[derive(Drop)]
struct Block {
    edges: Edges,
    hi: u32,
}

/// The edges from the value on, but no more than are few.
fn next_block(alloc: Global, edges: &[Edge], lo: u32, top: u32) -> Result<Block, Memory>
    requires full { AreFull top edges.now }
    requires within { lo ≤ top }
    ensures low { IfOk result (λ block. lo ≤ block.hi) }
    ensures high { IfOk result (λ block. block.hi ≤ top) }
    ensures full { IfOk result (λ block. AreFull top block.edges.items) }
    ensures leads { IfOk result (λ block. (u : ℕ) → lo ≤ u → u ≤ block.hi → child_of block.edges.items u ≡ child_of edges.now u) }
    ensures nodes { IfOk result (λ block. (nodes : List Node) (level : List ℕ) → LeadTo nodes level edges.now → LeadTo nodes level block.edges.items) }
{
    let last = u64::from(top);
    let mut few = SmallVec::new(alloc);
    let mut hi = lo;
    let mut filled = 0u64;
    while filled <= last {
        let from = lo.max(filled as u32);
        let edge = edge_at(edges, from);
        hi = edge.hi;
        let end = end_of(few.len(), edge.hi, top);
        few.push(Edge {
            hi: end,
            to: edge.to,
        })?;
        filled = u64::from(end) + 1;
    }
    Ok(Block { edges: few, hi })
}

/// Where an edge of a block ends, behind so many others: the last of a block that is full leads on to the greatest value.
fn end_of(count: usize, hi: u32, top: u32) -> u32
    requires { hi ≤ top }
    ensures low { hi ≤ result }
    ensures high { result ≤ top }
    ensures own { result < top → result ≤ hi }
{
    if count < FEW { hi } else { top }
}

/// The node that reads the field first, and then the level from where these edges lead.
fn turned(
    alloc: Global,
    store: &mut Store,
    level: &[u8],
    field: u8,
    edges: &[Edge],
) -> Result<NodeId, Memory>
    requires level { HasField level.now }
    requires upper { HasField (field ∷ level.now) }
    requires field { HasField (field ∷ next level.now) }
    requires full { AreFull (top_of level.now) edges.now }
    requires nodes { LeadTo store.old (field ∷ next level.now) edges.now }
    ensures level { IfOk result (λ id. level_of store.new id.0 ≡ field ∷ level.now) }
    ensures answers { IfOk result (λ id. (v u : ℕ) (values : List ℕ) → v ≤ greatest_of field → u ≤ top_of level.now →
        answer store.new id.0 (v ∷ u ∷ values) ≡ answer store.old (child_of (edges_of store.old (child_of edges.now u)) v) values) }
    ensures grows { Grows store.old store.new }
{
    let upper = before(alloc, field, level)?;
    let rows = few_rows(alloc, store, level, field, edges)?;
    let id = store.make(upper.as_slice(), rows.as_slice())?;
    Ok(id)
}

/// The edges of the field to nodes of the level, which lead from each value of its own field where the block of the
/// value leads from both.
fn joined(
    alloc: Global,
    store: &mut Store,
    level: &[u8],
    field: u8,
    blocks: &[Edge],
) -> Result<Edges, Memory>
    requires level { HasField level.now }
    requires upper { HasField (field ∷ level.now) }
    requires full { AreFull (top_of level.now) blocks.now }
    requires nodes { LeadTo store.old (field ∷ level.now) blocks.now }
    ensures full { IfOk result (λ rows. AreFull (greatest_of field) rows.items) }
    ensures nodes { IfOk result (λ rows. LeadTo store.new level.now rows.items) }
    ensures answers { IfOk result (λ rows. (v u : ℕ) (values : List ℕ) → v ≤ greatest_of field → u ≤ top_of level.now →
        answer store.new (child_of rows.items v) (u ∷ values) ≡ answer store.old (child_of blocks.now u) (v ∷ u ∷ values)) }
    ensures grows { Grows store.old store.new }
{
    store.same_answers();
    let top = u64::from(greatest(usize::from(field)));
    let mut places = vec![in alloc; 0; blocks.len()]?;
    let mut cells = SmallVec::with_capacity(alloc, blocks.len())?;
    let mut row = SmallVec::with_capacity(alloc, blocks.len())?;
    let mut rows = SmallVec::new(alloc);
    let mut filled = 0u64;
    while filled <= top {
        let hi = fill_row(store, field, blocks, &mut places, &mut cells, filled as u32)?;
        splice_row(store, level, cells.as_slice(), &mut row)?;
        let to = store.make(level, row.as_slice())?;
        rows.push(Edge { hi, to })?;
        filled = u64::from(hi) + 1;
    }
    Ok(rows)
}
