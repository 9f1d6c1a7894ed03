//! Nodes with another field in front, each made once.

use node_store::NodeId;
use razor_limits::Memory;
use std::alloc::Global;
use std::collections::HashMap;

/// A node, and the field that is to be read first.
#[derive(Clone, Copy, Debug, PartialEq, Eq, Hash)]
pub(crate) struct Asked {
    pub id: NodeId,
    pub field: u8,
}

/// The nodes that were made, each under what was asked.
#[derive(Drop)]
pub(crate) struct Fronts {
    made: HashMap<Asked, NodeId>,
}

impl Fronts {
    ghost use Rattle.std.specs.Prelude.{List, IfSome};
    ghost use Rattle.node_store.specs.Diagram.{Node};
    ghost use Rattle.field_order.specs.Fronts.{IsFront, AreFronts};

    /// Nothing was asked.
    pub fn new(alloc: Global) -> Fronts
        ensures { (nodes : List Node) → AreFronts nodes result }
    {
        Fronts {
            made: HashMap::new(alloc),
        }
    }

    /// The node that was made, if it was asked before.
    pub fn get(&self, asked: Asked) -> Option<NodeId>
        ensures { (nodes : List Node) → AreFronts nodes self.now →
            IfSome result (λ front. IsFront nodes asked.id.0 asked.field front.0) }
    {
        self.made.get(&asked).copied()
    }

    /// Keeps a node that was made; nothing more after a refusal of memory.
    pub fn keep(&mut self, asked: Asked, front: NodeId) -> Result<(), Memory>
        ensures { (nodes : List Node) → AreFronts nodes self.old →
            IsFront nodes asked.id.0 asked.field front.0 → AreFronts nodes self.new }
    {
        self.made.insert(asked, front)?;
        Ok(())
    }
}
