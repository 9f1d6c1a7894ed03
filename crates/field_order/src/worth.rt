//! What is known of the costs of nodes.

use node_store::NodeId;
use razor_limits::Memory;
use std::alloc::Global;
use std::collections::HashMap;

/// What a node costs in an order, or a number above which the cost is.
#[derive(Clone, Copy, Debug, PartialEq, Eq)]
pub(crate) enum Worth {
    Is(u128),
    Above(u128),
}

impl Worth {
    ghost use Rattle.std.specs.Prelude.{IsTrue};
    ghost use Rattle.field_order.specs.Worth.{Settles};

    /// Whether this says what the cost is, or that it is above the cap.
    fn settles(self, cap: u128) -> bool
        ensures { IsTrue result → Settles cap self }
    {
        match self {
            Worth::Is(_) => true,
            Worth::Above(least) => cap <= least,
        }
    }
}

/// A node, and an order of its fields: as digits to the base 5, the first field highest.
#[derive(Clone, Copy, Debug, PartialEq, Eq, Hash)]
pub(crate) struct Valued {
    pub id: NodeId,
    pub order: u32,
}

/// What is known of the nodes of one store.
///
/// The store may gain nodes between two calls, since its old numbers keep what they mean.
#[derive(Drop)]
pub(crate) struct Worths {
    known: HashMap<Valued, Worth>,
}

impl Worths {
    ghost use Rattle.std.specs.Prelude.{List, IfSome};
    ghost use Rattle.node_store.specs.Diagram.{Node};
    ghost use Rattle.field_order.specs.Worth.{AreWorths, IsKept, Settles};

    /// Nothing is known yet.
    pub fn new(alloc: Global) -> Worths
        ensures { (nodes : List Node) → AreWorths nodes result }
    {
        Worths {
            known: HashMap::new(alloc),
        }
    }

    /// What is known, if it settles whether the cost is above the cap.
    pub fn get(&self, key: Valued, cap: u128) -> Option<Worth>
        ensures kept { (nodes : List Node) → AreWorths nodes self.now → IfSome result (λ worth. IsKept nodes key worth) }
        ensures settles { IfSome result (λ worth. Settles cap worth) }
    {
        let worth = self.find(key)?;
        if worth.settles(cap) {
            Some(worth)
        } else {
            None
        }
    }

    /// What is known.
    fn find(&self, key: Valued) -> Option<Worth>
        ensures { (nodes : List Node) → AreWorths nodes self.now → IfSome result (λ worth. IsKept nodes key worth) }
    {
        self.known.get(&key).copied()
    }

    /// Keeps what was found; nothing more after a refusal of memory.
    pub fn keep(&mut self, key: Valued, worth: Worth) -> Result<(), Memory>
        ensures { (nodes : List Node) → AreWorths nodes self.old → IsKept nodes key worth → AreWorths nodes self.new }
    {
        self.known.insert(key, worth)?;
        Ok(())
    }
}
