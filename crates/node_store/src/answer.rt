//! The walk from a node down to a leaf: one binary search a field.
ghost use Rattle.std.specs.Prelude.{◌≡◌, ◌<◌, ◌≤◌, ℕ, length};
ghost use Rattle.field_boxes.specs.Headline.Fields.{stated};
ghost use Rattle.node_store.specs.Levels.{HasField, next, top_of};
ghost use Rattle.node_store.specs.Diagram.{level_of, edges_of, answer};
ghost use Rattle.node_store.specs.Edges.{AreFull, child_of};

use crate::edge::{Edge, NodeId};
use crate::store::Store;
use field_boxes::Header;

impl Store {
    /// What the diagram under a node over all fields in the stated order answers for the header.
    pub fn answer(&self, id: NodeId, header: &Header) -> u32
        requires { level_of self.now id.0 ≡ stated }
        ensures { result ≡ answer self.now id.0 header.now.values }
    {
        let mut at = id;
        for value in &header.values {
            at = self.child(at, *value);
        }
        self.decision(at).unwrap_or(0)
    }

    /// The child to which the value leads.
    fn child(&self, id: NodeId, value: u32) -> NodeId
        requires number { id.0 < length self.now }
        requires inner { HasField (level_of self.now id.0) }
        requires value { value ≤ top_of (level_of self.now id.0) }
        ensures child { result.0 ≡ child_of (edges_of self.now id.0) value }
        ensures number { result.0 < length self.now }
        ensures level { level_of self.now result.0 ≡ next (level_of self.now id.0) }
    {
        self.same_answers();
        edge_at(self.edges(id), value).to
    }
}

/// The edge of the value, by a binary search.
pub fn edge_at(edges: &[Edge], value: u32) -> Edge
    requires { (greatest : ℕ) × AreFull greatest edges.now × (value ≤ greatest) }
    ensures low { value ≤ result.hi }
    ensures high { (greatest : ℕ) → AreFull greatest edges.now → result.hi ≤ greatest }
    ensures leads { (v : ℕ) → value ≤ v → v ≤ result.hi → child_of edges.now v ≡ result.to.0 }
{
    edges[edges.partition_point(|edge| edge.hi < value)]
}
