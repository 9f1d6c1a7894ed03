//! The common split of the edges of two nodes inside a span of their field.
ghost use Rattle.std.specs.Prelude.{◌≡◌, ◌≤◌, ◌<◌, ◌⊎◌, ℕ, List, [], map, OnOk, MatchOption};
ghost use Rattle.node_store.specs.Levels.{HasField, next, top_of};
ghost use Rattle.node_store.specs.Diagram.{Node, level_of, edges_of};
ghost use Rattle.node_store.specs.Split.{to_left, to_right};
ghost use Rattle.node_store.specs.Store.{LeadTo};
ghost use Rattle.field_sets.specs.Fill.{Fill};
ghost use Rattle.field_sets.specs.Parting.{IsSplitWithin, IsFirstWithin};

use crate::reaching::{past, reaching};
use field_boxes::Span;
use node_store::{Edge, NodeId, Part, Parts, Store};
use razor_limits::Memory;

/// Puts into the list the parts of the span on which each of two inner nodes of one level leads to one child, in rising
/// order. What was in the list is lost, and its room is used again.
///
/// Two binary searches, and one pass over both nodes' edges inside the span.
pub fn put_parts(
    store: &Store,
    left: NodeId,
    right: NodeId,
    span: Span,
    parts: &mut Parts,
) -> Result<(), Memory>
    requires inner { HasField (level_of store.now left.0) }
    requires level { level_of store.now right.0 ≡ level_of store.now left.0 }
    requires span { span.hi ≤ top_of (level_of store.now left.0) }
    ensures split { OnOk result (IsSplitWithin span.lo span.hi (edges_of store.now left.0) (edges_of store.now right.0) parts.new.items) }
    ensures left { OnOk result (LeadTo store.now (next (level_of store.now left.0)) (map to_left parts.new.items)) }
    ensures right { OnOk result (LeadTo store.now (next (level_of store.now left.0)) (map to_right parts.new.items)) }
{
    let left = reaching(store.edges(left), span.lo);
    let right = reaching(store.edges(right), span.lo);
    put_parts_of(left, right, span.hi, parts)?;
    Ok(())
}

/// The parts up to a value, by one pass over both lists of edges.
fn put_parts_of(left: &[Edge], right: &[Edge], hi: u32, parts: &mut Parts) -> Result<(), Memory>
    ensures split { (lo top : ℕ) → lo ≤ hi → hi ≤ top → Fill lo top left.now → Fill lo top right.now →
        OnOk result (IsSplitWithin lo hi left.now right.now parts.new.items) }
    ensures left { (nodes : List Node) (level : List ℕ) → LeadTo nodes level left.now → OnOk result (LeadTo nodes level (map to_left parts.new.items)) }
    ensures right { (nodes : List Node) (level : List ℕ) → LeadTo nodes level right.now → OnOk result (LeadTo nodes level (map to_right parts.new.items)) }
{
    parts.clear();
    let mut left = left;
    let mut right = right;
    while let Some(part) = first(left, right, hi) {
        parts.push(part)?;
        if part.hi == hi {
            return Ok(());
        }
        left = past(left, part.hi);
        right = past(right, part.hi);
    }
    Ok(())
}

/// The first part of the edges that are left; none where none are left.
fn first(left: &[Edge], right: &[Edge], hi: u32) -> Option<Part>
    ensures { MatchOption result ((left.now ≡ []) ⊎ (right.now ≡ [])) (λ part. IsFirstWithin hi left.now right.now part) }
{
    let (left, right) = (left.first()?, right.first()?);
    Some(Part {
        hi: hi.min(left.hi.min(right.hi)),
        left: left.to,
        right: right.to,
    })
}
