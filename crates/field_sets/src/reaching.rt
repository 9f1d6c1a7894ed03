//! The edges that don't end below a value.
ghost use Rattle.std.specs.Prelude.{◌≡◌, ◌≤◌, ℕ, suc};
ghost use Rattle.node_store.specs.Edges.{AreFull};
ghost use Rattle.field_sets.specs.Fill.{reaching};

use node_store::Edge;

/// The edges past a value, by going over those that aren't.
pub(crate) fn past(edges: &[Edge], hi: u32) -> &[Edge]
    ensures { result.now ≡ reaching (suc hi) edges.now }
{
    let mut edges = edges;
    while let [edge, rest @ ..] = edges {
        if hi < edge.hi {
            return edges;
        }
        edges = rest;
    }
    edges
}

/// The edges of a field from that of a value on, by a binary search.
pub(crate) fn reaching(edges: &[Edge], value: u32) -> &[Edge]
    ensures { (greatest : ℕ) → AreFull greatest edges.now → result.now ≡ reaching value edges.now }
{
    &edges[edges.partition_point(|edge| edge.hi < value)..]
}
