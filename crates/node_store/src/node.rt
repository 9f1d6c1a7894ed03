//! What the store keeps of a node.

use crate::edge::Edge;
use crate::level::Level;
use smallvec::SmallVec;

/// The edges of a node: few nodes have more than an interval in the middle of their field, so three
/// lie in the node itself.
pub(crate) type Edges = SmallVec<Edge, 3>;

/// A leaf, or a node of a level.
#[derive(Debug, PartialEq, Eq, Hash, Drop)]
pub(crate) enum Node {
    Leaf(u32),
    Inner { level: Level, edges: Edges },
}
