//! Nodes with their places among one another.
ghost use Rattle.std.specs.Prelude.{◌≡◌, ◌≢◌, ◌<◌, ◌≤◌, ◌^◌, [], Some, length, slice_get, IfOk, OnOk};
ghost use Rattle.std.specs.Bool.{OnTrue, OnFalse};
ghost use Rattle.table_compose.specs.Labels.{with_child, ArePlaced};

use node_store::NodeId;
use razor_limits::Memory;
use std::alloc::Global;

/// Nodes in the order in which they came, each once; a node's place is found by its number.
#[derive(Drop)]
pub(crate) struct Placed {
    pub nodes: Vec<NodeId>,
    /// The place of each of the nodes, by its number. What stands under another number says nothing, so
    /// nothing is written here when the nodes give way to others.
    pub places: Vec<u32>,
}

impl Placed {
    /// No nodes.
    pub fn new(alloc: Global) -> Placed {
        Placed {
            nodes: Vec::new(alloc),
            places: Vec::new(alloc),
        }
    }

    /// Makes room for nodes with numbers below the count.
    pub fn make_room(&mut self, count: usize) -> Result<(), Memory>
        ensures more { length self.old.places.items ≤ length self.new.places.items }
        ensures room { OnOk result (count ≤ length self.new.places.items) }
    {
        let count = self.places.len().max(count);
        self.places.resize(count, 0)?;
        Ok(())
    }

    /// Takes all nodes out; the room stays.
    pub fn clear(&mut self)
        ensures nodes { self.new.nodes.items ≡ [] }
        ensures places { self.new.places.items ≡ self.old.places.items }
    {
        self.nodes.clear();
    }

    /// The place of the node, which goes last where it isn't there yet.
    pub fn place(&mut self, node: NodeId) -> Result<u32, Memory>
        requires few { length self.old.nodes.items < 2 ^ 32 }
        requires room { node.0 < length self.old.places.items }
        requires placed { ArePlaced self.old.places.items self.old.nodes.items }
        ensures nodes { OnOk result (self.new.nodes.items ≡ with_child self.old.nodes.items node) }
        ensures at { IfOk result (λ place. slice_get self.new.nodes.items place ≡ Some node) }
        ensures placed { OnOk result (ArePlaced self.new.places.items self.new.nodes.items) }
        ensures room { length self.new.places.items ≡ length self.old.places.items }
    {
        let known = self.places[node.0 as usize];
        if stands(self.nodes.as_slice(), known, node) {
            return Ok(known);
        }
        let place = self.nodes.len() as u32;
        self.nodes.push(node)?;
        self.places[node.0 as usize] = place;
        Ok(place)
    }
}

/// Whether the node stands at the place.
fn stands(nodes: &[NodeId], place: u32, node: NodeId) -> bool
    ensures here { OnTrue result (slice_get nodes.now place ≡ Some node) }
    ensures elsewhere { OnFalse result (slice_get nodes.now place ≢ Some node) }
{
    if nodes.len() <= place as usize {
        return false;
    }
    nodes[place as usize].0 == node.0
}
