//! A node that leads elsewhere at some spans of its field.
ghost use Rattle.std.specs.Prelude.{◌≡◌, ◌≤◌, ◌<◌, ℕ, List, [], ◌∷◌, IfOk, MatchOption};
ghost use Rattle.node_store.specs.Levels.{HasField, next, top_of};
ghost use Rattle.node_store.specs.Diagram.{Node, level_of, edges_of, answer};
ghost use Rattle.node_store.specs.Edges.{AreFull, child_of};
ghost use Rattle.node_store.specs.Store.{Grows, LeadTo};
ghost use Rattle.field_sets.specs.Placed.{led, RiseFrom, PlacedAt};
ghost use Rattle.field_sets.specs.Laying.{IsBeside, IsNext, left_past};

use crate::placed::Placed;
use crate::reaching::past;
use node_store::{Edge, NodeId, Store};
use razor_limits::Memory;
use smallvec::SmallVec;
use std::alloc::Global;

/// The edges of a node: most have few.
type Edges = SmallVec<Edge, 6>;

/// The node of the level that leads, at the values of each of the spans, where that leads, and elsewhere where the
/// node leads.
///
/// One pass over the node's edges and the spans. With no spans it is the node itself.
pub fn laid(
    alloc: Global,
    store: &mut Store,
    level: &[u8],
    node: NodeId,
    placed: &[Placed],
) -> Result<NodeId, Memory>
    requires level { HasField level.now }
    requires node { level_of store.old node.0 ≡ level.now }
    requires rise { RiseFrom 0 (top_of level.now) placed.now }
    requires children { PlacedAt store.old (next level.now) placed.now }
    ensures level { IfOk result (λ id. level_of store.new id.0 ≡ level.now) }
    ensures answers { IfOk result (λ id. (v : ℕ) (values : List ℕ) → v ≤ top_of level.now →
        answer store.new id.0 (v ∷ values) ≡ answer store.old (led placed.now (edges_of store.old node.0) v) values) }
    ensures grows { Grows store.old store.new }
{
    if placed.is_empty() {
        return Ok(node);
    }
    let edges = edges(alloc, store.edges(node), placed)?;
    let id = store.make(level, edges.as_slice())?;
    Ok(id)
}

/// The edges of that node.
fn edges(alloc: Global, own: &[Edge], placed: &[Placed]) -> Result<Edges, Memory>
    ensures full { (top : ℕ) → AreFull top own.now → RiseFrom 0 top placed.now → IfOk result (λ edges. AreFull top edges.items) }
    ensures leads { (top : ℕ) → AreFull top own.now → RiseFrom 0 top placed.now →
        IfOk result (λ edges. (v : ℕ) → v ≤ top → child_of edges.items v ≡ led placed.now own.now v) }
    ensures children { (nodes : List Node) (level : List ℕ) → LeadTo nodes level own.now → PlacedAt nodes level placed.now →
        IfOk result (λ edges. LeadTo nodes level edges.items) }
{
    let mut edges = SmallVec::new(alloc);
    let mut own = own;
    let mut placed = placed;
    let mut filled = 0;
    while let Some(edge) = next(own, placed, filled) {
        own = past(own, edge.hi);
        placed = left_past(placed, edge.hi);
        filled = u64::from(edge.hi) + 1;
        edges.push(edge)?;
    }
    Ok(edges)
}

/// The edge from the first value on that isn't filled; none where no own edges are left.
fn next(own: &[Edge], placed: &[Placed], filled: u64) -> Option<Edge>
    ensures { MatchOption result (own.now ≡ []) (λ edge. IsNext filled own.now placed.now edge) }
{
    let edge = own.first()?;
    match placed.first() {
        None => Some(*edge),
        Some(placed) => Some(beside(*edge, *placed, filled)),
    }
}

/// The same beside the first of the spans that are left.
fn beside(edge: Edge, placed: Placed, filled: u64) -> Edge
    ensures { IsBeside filled edge placed result }
{
    if filled < u64::from(placed.span.lo) {
        Edge {
            hi: edge.hi.min(placed.span.lo - 1),
            to: edge.to,
        }
    } else {
        Edge {
            hi: placed.span.hi,
            to: placed.to,
        }
    }
}

/// The spans past a value: the first one is among them unless it ends there.
fn left_past(placed: &[Placed], hi: u32) -> &[Placed]
    ensures { result.now ≡ left_past hi placed.now }
{
    match placed {
        [first, rest @ ..] if first.span.hi == hi => rest,
        _ => placed,
    }
}
