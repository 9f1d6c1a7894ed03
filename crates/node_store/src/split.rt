//! The common split of the edges of two nodes.
ghost use Rattle.std.specs.Prelude.{◌≡◌, ◌<◌, ◌⊎◌, ℕ, List, [], map, IfOk, MatchOption};
ghost use Rattle.node_store.specs.Levels.{HasField, next, top_of};
ghost use Rattle.node_store.specs.Diagram.{Node, level_of, edges_of};
ghost use Rattle.node_store.specs.Edges.{AreFull, LeadApart};
ghost use Rattle.node_store.specs.Parts.{IsFirst, past};
ghost use Rattle.node_store.specs.Store.{LeadTo};
ghost use Rattle.node_store.specs.Split.{IsSplit, to_left, to_right};

use crate::edge::{Edge, NodeId};
use crate::store::Store;
use razor_limits::Memory;
use smallvec::SmallVec;

/// Some values of a field, from past the part before it up to `hi`, and where they lead from a left
/// and from a right node.
#[derive(Clone, Copy, Debug, Default, PartialEq, Eq)]
pub struct Part {
    pub hi: u32,
    pub left: NodeId,
    pub right: NodeId,
}

/// Parts of a span of a field: most spans fall into few, which need no allocation.
pub type Parts = SmallVec<Part, 6>;

impl Store {
    /// The fewest parts of their field on which each of two inner nodes of one level leads to one
    /// child, in rising order.
    ///
    /// One pass over both nodes' edges.
    pub fn split(&self, left: NodeId, right: NodeId) -> Result<Vec<Part>, Memory>
        requires inner { HasField (level_of self.now left.0) }
        requires level { level_of self.now right.0 ≡ level_of self.now left.0 }
        ensures split { IfOk result (λ parts.
            IsSplit (top_of (level_of self.now left.0)) (edges_of self.now left.0) (edges_of self.now right.0) parts.items) }
        ensures left { IfOk result (λ parts. LeadTo self.now (next (level_of self.now left.0)) (map to_left parts.items)) }
        ensures right { IfOk result (λ parts. LeadTo self.now (next (level_of self.now left.0)) (map to_right parts.items)) }
    {
        self.split_in(left, right, Vec::new(self.allocator()))
    }

    /// The same, in the room of an empty vector.
    pub fn split_in(
        &self,
        left: NodeId,
        right: NodeId,
        room: Vec<Part>,
    ) -> Result<Vec<Part>, Memory>
        requires inner { HasField (level_of self.now left.0) }
        requires level { level_of self.now right.0 ≡ level_of self.now left.0 }
        requires empty { room.items ≡ [] }
        ensures split { IfOk result (λ parts.
            IsSplit (top_of (level_of self.now left.0)) (edges_of self.now left.0) (edges_of self.now right.0) parts.items) }
        ensures left { IfOk result (λ parts. LeadTo self.now (next (level_of self.now left.0)) (map to_left parts.items)) }
        ensures right { IfOk result (λ parts. LeadTo self.now (next (level_of self.now left.0)) (map to_right parts.items)) }
    {
        parts_of(self.edges(left), self.edges(right), room)
    }
}

/// The parts, by one pass over both lists of edges.
fn parts_of(left: &[Edge], right: &[Edge], room: Vec<Part>) -> Result<Vec<Part>, Memory>
    requires empty { room.items ≡ [] }
    ensures split { (greatest : ℕ) → AreFull greatest left.now → AreFull greatest right.now → LeadApart left.now → LeadApart right.now →
        IfOk result (λ parts. IsSplit greatest left.now right.now parts.items) }
    ensures left { (nodes : List Node) (level : List ℕ) → LeadTo nodes level left.now → IfOk result (λ parts. LeadTo nodes level (map to_left parts.items)) }
    ensures right { (nodes : List Node) (level : List ℕ) → LeadTo nodes level right.now → IfOk result (λ parts. LeadTo nodes level (map to_right parts.items)) }
{
    let mut parts = room;
    let mut left = left;
    let mut right = right;
    while let Some(part) = first(left, right) {
        left = past(left, part.hi);
        right = past(right, part.hi);
        parts.push(part)?;
    }
    Ok(parts)
}

/// The first part of the edges that are left; none where none are left.
fn first(left: &[Edge], right: &[Edge]) -> Option<Part>
    ensures { MatchOption result ((left.now ≡ []) ⊎ (right.now ≡ [])) (λ part. IsFirst left.now right.now part) }
{
    let (left, right) = (left.first()?, right.first()?);
    Some(Part {
        hi: left.hi.min(right.hi),
        left: left.to,
        right: right.to,
    })
}

/// The edges past a value: the first one is among them unless it ends there.
fn past(edges: &[Edge], hi: u32) -> &[Edge]
    ensures { result.now ≡ past hi edges.now }
{
    match edges {
        [edge, rest @ ..] if edge.hi == hi => rest,
        _ => edges,
    }
}
