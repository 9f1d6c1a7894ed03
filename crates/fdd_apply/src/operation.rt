//! What is made of the answers of two diagrams.
ghost use Rattle.std.specs.Prelude.{◌≡◌, ℕ, List, IfSome};
ghost use Rattle.node_store.specs.Levels.{IsLevel};
ghost use Rattle.node_store.specs.Diagram.{Node};
ghost use Rattle.node_store.specs.Store.{Grows};
ghost use Rattle.fdd_apply.specs.Applied.{AreAt, IsApplied};

use crate::pair::Pair;
use node_store::{NodeId, Store};

/// What comes of two answers, and which pairs of nodes are known at sight.
pub trait Operation {
    /// What comes of a left and a right answer.
    ghost combined: { Self → ℕ → ℕ → ℕ };

    /// What the operation relies on in the nodes of a store.
    ghost suits: { Self → List Node → Type 0 };

    /// What comes of two decisions.
    fn of(&self, left: u32, right: u32) -> u32
        ensures { result ≡ combined self.now left right };

    /// What comes of two nodes of the level, where that is seen without a look below them. By default no pair is.
    fn at_sight(&self, store: &Store, level: &[u8], pair: Pair) -> Option<NodeId>
        requires suits { suits self.now store.now }
        requires level { IsLevel level.now }
        requires pair { AreAt store.now level.now pair }
        ensures { IfSome result (λ id. IsApplied (combined self.now) store.now pair id) }
    {
        let _store = store;
        let _level = level;
        let _pair = pair;
        None
    }

    /// It may rely on it as long as the store only gains nodes.
    ghost lasts: { (operation : Self) (old new : List Node) → Grows old new → suits operation old → suits operation new };
}
