//! The labels of the values of a node's field.
ghost use Rattle.std.specs.Prelude.{◌≡◌, ◌≤◌, ◌^◌, length, IfOk};
ghost use Rattle.table_compose.specs.Labels.{children_of, ArePieces};

use indexmap::IndexSet;
use node_store::{Edge, NodeId};
use prefix_min::Piece;
use razor_limits::Memory;
use std::alloc::Global;

/// The children of a node, each once, and its edges as pieces whose labels are places of children.
#[derive(Drop)]
pub(crate) struct Labels {
    pub children: IndexSet<NodeId>,
    pub pieces: Vec<Piece>,
}

impl Labels {
    /// The labels are numbered from 0 by the first edge that leads to each child.
    pub fn of(alloc: Global, edges: &[Edge]) -> Result<Labels, Memory>
        requires { length edges.now ≤ 2 ^ 32 }
        ensures children { IfOk result (λ l. l.children.keys ≡ children_of edges.now) }
        ensures pieces { IfOk result (λ l. ArePieces (children_of edges.now) edges.now l.pieces.items) }
    {
        let mut children = IndexSet::with_capacity(alloc, edges.len())?;
        let mut pieces = Vec::with_capacity(alloc, edges.len())?;
        for edge in edges {
            let (place, _) = children.insert_full(edge.to)?;
            pieces.push(Piece {
                hi: edge.hi,
                label: place as u32,
            })?;
        }
        Ok(Labels { children, pieces })
    }
}
