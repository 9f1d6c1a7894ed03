//! The common split of two nodes of one field.
ghost use Rattle.std.specs.Prelude.{◌≡◌, map, IfOk};
ghost use Rattle.node_store.specs.Levels.{HasField, next, top_of};
ghost use Rattle.node_store.specs.Diagram.{level_of, edges_of};
ghost use Rattle.node_store.specs.Split.{IsSplit, to_left, to_right};
ghost use Rattle.node_store.specs.Store.{LeadTo};
ghost use Rattle.fdd_ops.specs.Joint.{IsCoarsest};

use node_store::{NodeId, Part, Store};
use razor_limits::Memory;
use std::alloc::Global;

/// Some values of a field, from past the edge before it up to `hi`, and the children to which they lead
/// from a left and from a right node.
pub type JointEdge = Part;

/// The fewest intervals of their field on which each of two inner nodes of one level leads to one child,
/// in rising order.
///
/// Neighbours differ in a child. One pass over both nodes' edges.
pub fn joint(alloc: Global, store: &Store, a: NodeId, b: NodeId) -> Result<Vec<JointEdge>, Memory>
    requires inner { HasField (level_of store.now a.0) }
    requires level { level_of store.now b.0 ≡ level_of store.now a.0 }
    ensures split { IfOk result (λ edges.
        IsSplit (top_of (level_of store.now a.0)) (edges_of store.now a.0) (edges_of store.now b.0) edges.items) }
    ensures coarsest { IfOk result (λ edges.
        IsCoarsest (top_of (level_of store.now a.0)) (edges_of store.now a.0) (edges_of store.now b.0) edges.items) }
    ensures left { IfOk result (λ edges. LeadTo store.now (next (level_of store.now a.0)) (map to_left edges.items)) }
    ensures right { IfOk result (λ edges. LeadTo store.now (next (level_of store.now a.0)) (map to_right edges.items)) }
{
    let parts = store.split(a, b)?;
    let edges = parts.as_slice().to_vec(alloc)?;
    Ok(edges)
}
