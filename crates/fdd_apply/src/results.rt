//! What walks over pairs of nodes have come to.

use crate::pair::Pair;
use crate::rooms::Rooms;
use node_store::NodeId;
use razor_limits::Memory;
use std::alloc::Global;
use std::collections::HashMap;

/// The pairs that walks with one operation have been through, with what came of each.
#[derive(Drop)]
pub struct Results {
    nodes: HashMap<Pair, NodeId>,
    /// The room in which walks work.
    pub(crate) rooms: Rooms,
}

impl Results {
    ghost use Rattle.std.specs.Prelude.{◌≡◌, ℕ, List, Some, IfSome, OnOk};
    ghost use Rattle.node_store.specs.Diagram.{Node};
    ghost use Rattle.fdd_apply.specs.Applied.{IsApplied};
    ghost use Rattle.fdd_apply.specs.Results.{kept_at, AreResults, KeepsPairs};

    /// No pairs.
    pub fn new(alloc: Global) -> Results
        ensures { (f : ℕ → ℕ → ℕ) (nodes : List Node) → AreResults f nodes result }
    {
        Results {
            nodes: HashMap::new(alloc),
            rooms: Rooms::new(alloc),
        }
    }

    /// Lets all pairs go, and keeps the room in which walks work.
    pub fn clear(&mut self, alloc: Global)
        ensures { (f : ℕ → ℕ → ℕ) (nodes : List Node) → AreResults f nodes self.new }
    {
        self.nodes = HashMap::new(alloc);
    }

    /// What came of the pair, if a walk has been through it.
    pub(crate) fn get(&self, pair: Pair) -> Option<NodeId>
        ensures kept { result ≡ kept_at self.now pair }
        ensures applied { (f : ℕ → ℕ → ℕ) (nodes : List Node) → AreResults f nodes self.now →
            IfSome result (λ id. IsApplied f nodes pair id) }
    {
        self.nodes.get(&pair).copied()
    }

    /// Keeps what came of the pair, and all that was kept before; nothing more after a refusal of memory.
    pub(crate) fn keep(&mut self, pair: Pair, id: NodeId) -> Result<(), Memory>
        ensures kept { OnOk result (kept_at self.new pair ≡ Some id) }
        ensures results { (f : ℕ → ℕ → ℕ) (nodes : List Node) → AreResults f nodes self.old →
            IsApplied f nodes pair id → AreResults f nodes self.new }
        ensures earlier { KeepsPairs self.old self.new }
    {
        self.nodes.insert(pair, id)?;
        Ok(())
    }
}
