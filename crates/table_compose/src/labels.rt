//! The labels of a node's values, and what they weigh.
ghost use Rattle.std.specs.Prelude.{◌≡◌, ◌≤◌, ◌<◌, ◌^◌, All, length, map, slice_index, IfOk, OnOk};
ghost use Rattle.node_store.specs.Levels.{HasField};
ghost use Rattle.node_store.specs.Diagram.{level_of};
ghost use Rattle.table_compose.specs.Asked.{AreInputs};
ghost use Rattle.table_compose.specs.Labels.{children_of, ArePieces};
ghost use Rattle.table_compose.specs.Plans.{width_of};

use crate::placed::Placed;
use field_boxes::width;
use node_store::{Edge, NodeId, Store};
use prefix_min::Piece;
use razor_limits::Memory;
use std::alloc::Global;

/// The children of a node, each once, its edges as pieces whose labels are places of children, and what the
/// labels weigh. Nodes are labelled one after another, each in the room of the one before.
#[derive(Drop)]
pub(crate) struct Labelling {
    pub children: Placed,
    pub pieces: Vec<Piece>,
    pub weights: Vec<u128>,
}

impl Labelling {
    /// Nothing is labelled.
    pub fn new(alloc: Global) -> Labelling {
        Labelling {
            children: Placed::new(alloc),
            pieces: Vec::new(alloc),
            weights: Vec::new(alloc),
        }
    }

    /// Labels an inner node, by what its children cost, and says how many bits its field has.
    pub fn ask(&mut self, store: &Store, costs: &[u128], id: NodeId) -> Result<u8, Memory>
        requires number { id.0 < length store.now }
        requires field { HasField (level_of store.now id.0) }
        requires costs { id.0 ≤ length costs.now }
        requires places { id.0 ≤ length self.old.children.places.items }
        ensures inputs { OnOk result (AreInputs store.now id.0 costs.now self.new.children.nodes.items self.new.pieces.items self.new.weights.items) }
        ensures bits { IfOk result (λ bits. bits ≡ width_of (level_of store.now id.0)) }
        ensures narrow { IfOk result (λ bits. bits ≤ 32) }
        ensures places { length self.new.children.places.items ≡ length self.old.children.places.items }
    {
        store.same_answers();
        let level = store.level(id);
        let edges = store.edges(id);
        self.label(edges)?;
        weigh(&mut self.weights, self.children.nodes.as_slice(), costs)?;
        let bits = width(usize::from(level[0]));
        Ok(bits)
    }

    /// The labels are numbered from 0 by the first edge that leads to each child.
    fn label(&mut self, edges: &[Edge]) -> Result<(), Memory>
        requires few { length edges.now ≤ 2 ^ 32 }
        requires room { All (λ e. e.to.0 < length self.old.children.places.items) edges.now }
        ensures children { OnOk result (self.new.children.nodes.items ≡ children_of edges.now) }
        ensures pieces { OnOk result (ArePieces (children_of edges.now) edges.now self.new.pieces.items) }
        ensures places { length self.new.children.places.items ≡ length self.old.children.places.items }
    {
        self.children.clear();
        self.pieces.clear();
        for edge in edges {
            let label = self.children.place(edge.to)?;
            self.pieces.push(Piece { hi: edge.hi, label })?;
        }
        Ok(())
    }
}

/// What each child costs.
fn weigh(weights: &mut Vec<u128>, children: &[NodeId], costs: &[u128]) -> Result<(), Memory>
    requires { All (λ c. c.0 < length costs.now) children.now }
    ensures { OnOk result (weights.new.items ≡ map (λ c. slice_index costs.now c.0) children.now) }
{
    weights.clear();
    for child in children {
        weights.push(costs[child.0 as usize])?;
    }
    Ok(())
}
