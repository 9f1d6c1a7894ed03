//! One diagram laid over another.

use crate::nothing::Nodes;
use crate::overlay::Overlay;
use fdd_apply::{Operation, Pair, Results, apply};
use node_store::{NodeId, Store};
use razor_limits::Memory;
use std::alloc::Global;

/// How diagrams are laid, with the node of each level that answers 0 everywhere: the one with most fields first.
#[derive(Drop)]
pub(crate) struct Laying {
    pub overlay: Overlay,
    pub nothing: Nodes,
}

impl Laying {
    ghost use Rattle.std.specs.Prelude.{◌≡◌, ℕ, List, IfOk, IfSome};
    ghost use Rattle.field_boxes.specs.Headline.Fields.{AreValues};
    ghost use Rattle.node_store.specs.Levels.{IsLevel};
    ghost use Rattle.node_store.specs.Diagram.{Node, level_of, answer};
    ghost use Rattle.node_store.specs.Store.{Grows};
    ghost use Rattle.fdd_apply.specs.Applied.{AreAt, IsApplied};
    ghost use Rattle.fdd_build.specs.Overlay.{shown};
    ghost use Rattle.fdd_build.specs.Nothing.{IsZero, AreZeros, AreNothing};

    /// Lays the diagram under one node over that under another.
    pub fn lay(
        &self,
        alloc: Global,
        store: &mut Store,
        level: &[u8],
        upper: NodeId,
        lower: NodeId,
    ) -> Result<NodeId, Memory>
        requires level { IsLevel level.now }
        requires nothing { AreNothing store.old level.now self.now.nothing.items }
        requires upper { level_of store.old upper.0 ≡ level.now }
        requires lower { level_of store.old lower.0 ≡ level.now }
        ensures level { IfOk result (λ id. level_of store.new id.0 ≡ level.now) }
        ensures answers { IfOk result (λ id. (values : List ℕ) → AreValues level.now values →
            answer store.new id.0 values ≡ shown self.now.overlay (answer store.old upper.0 values) (answer store.old lower.0 values)) }
        ensures grows { Grows store.old store.new }
    {
        let mut results = Results::new(alloc);
        let id = apply(alloc, self, store, &mut results, level, upper, lower)?;
        Ok(id)
    }

    /// The node with so many fields to read that answers 0 everywhere, where the list has one.
    fn nothing_at(&self, fields: usize) -> Option<NodeId>
        ensures { (nodes : List Node) → AreZeros nodes self.now.nothing.items → IfSome result (IsZero nodes) }
    {
        let nothing = self.nothing.as_slice();
        if fields < nothing.len() {
            Some(nothing[nothing.len() - 1 - fields])
        } else {
            None
        }
    }

    /// What shows of a pair of which one node answers 0 everywhere.
    fn beside(&self, store: &Store, level: &[u8], nothing: NodeId, pair: Pair) -> Option<NodeId>
        requires nothing { IsZero store.now nothing }
        requires level { IsLevel level.now }
        requires pair { AreAt store.now level.now pair }
        ensures { IfSome result (λ id. IsApplied (shown self.now.overlay) store.now pair id) }
    {
        let _store = store;
        let _level = level;
        if pair.left == nothing {
            return Some(pair.right);
        }
        if pair.right == nothing && self.overlay == Overlay::Answer {
            return Some(pair.left);
        }
        None
    }
}

impl Operation for Laying {
    ghost use Rattle.fdd_build.specs.Overlay.{shown};
    ghost use Rattle.fdd_build.specs.Nothing.{AreZeros};
    ghost use Rattle.fdd_build.specs.Lasting.{zeros_last};

    ghost combined = { λ laying. shown laying.overlay };

    ghost suits = { λ laying nodes. AreZeros nodes laying.nothing.items };

    fn of(&self, left: u32, right: u32) -> u32 {
        self.overlay.of(left, right)
    }

    fn at_sight(&self, store: &Store, level: &[u8], pair: Pair) -> Option<NodeId> {
        let nothing = self.nothing_at(level.len())?;
        self.beside(store, level, nothing, pair)
    }

    ghost lasts = { λ laying old new grows zeros. zeros_last old new laying.nothing.items grows zeros };
}
