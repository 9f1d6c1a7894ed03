//! Sets of values of a level's fields, as diagrams that answer 0 outside.

use crate::constant::answering;
use crate::laying::laid;
use crate::placed::Placed;
use crate::uniting::Uniting;
use fdd_apply::{Results, apply};
use node_store::{NodeId, Store};
use razor_limits::Memory;
use std::alloc::Global;
use std::marker::Model;

/// A store, and the unions that were worked out before.
#[derive(Drop)]
pub struct Sets {
    alloc: Global,
    store: Store,
    unions: Results,
}

impl Model for Sets {
    ghost use Rattle.std.specs.Prelude.{List};
    ghost use Rattle.node_store.specs.Diagram.{Node as Seen};
    ghost use Rattle.fdd_apply.specs.Results.{AreResults};
    ghost use Rattle.field_sets.specs.Unions.{united};

    ghost Value = { List Seen };

    ghost view = { λ s. s.store };

    ghost invariant = { λ s. AreResults united s.store s.unions };
}

impl Sets {
    ghost use Rattle.std.specs.Prelude.{◌≡◌, ◌≤◌, ◌||◌, ℕ, List, [], ◌∷◌, Some, IfOk};
    ghost use Rattle.field_boxes.specs.Headline.Fields.{AreValues};
    ghost use Rattle.node_store.specs.Levels.{HasField, IsLevel, next, top_of};
    ghost use Rattle.node_store.specs.Diagram.{level_of, edges_of, decision_of, answer};
    ghost use Rattle.node_store.specs.Store.{Grows};
    ghost use Rattle.field_sets.specs.Placed.{led, RiseFrom, PlacedAt};
    ghost use Rattle.field_sets.specs.Constant.{AnswersAlways};
    ghost use Rattle.field_sets.specs.Unions.{is_in};

    /// A store of no sets.
    pub fn new(alloc: Global) -> Sets
        ensures { result ≡ [] }
    {
        Sets {
            alloc,
            store: Store::new(alloc),
            unions: Results::new(alloc),
        }
    }

    /// The store.
    pub fn store(&self) -> &Store
        ensures { result.now ≡ self.now }
    {
        &self.store
    }

    /// The empty set of the level.
    ///
    /// It has a node for each field of the level, which the store gains where they aren't there; so has the full set.
    pub fn none(&mut self, level: &[u8]) -> Result<NodeId, Memory>
        requires { IsLevel level.now }
        ensures none { IfOk result (λ id. AnswersAlways self.new level.now 0 id.0) }
        ensures grows { Grows self.old self.new }
    {
        let id = answering(&mut self.store, level, 0)?;
        Ok(id)
    }

    /// The full set of the level.
    pub fn full(&mut self, level: &[u8]) -> Result<NodeId, Memory>
        requires { IsLevel level.now }
        ensures full { IfOk result (λ id. AnswersAlways self.new level.now 1 id.0) }
        ensures grows { Grows self.old self.new }
    {
        let id = answering(&mut self.store, level, 1)?;
        Ok(id)
    }

    /// The leaf with the decision.
    pub fn leaf(&mut self, decision: u32) -> Result<NodeId, Memory>
        ensures level { IfOk result (λ id. level_of self.new id.0 ≡ []) }
        ensures decision { IfOk result (λ id. decision_of self.new id.0 ≡ Some decision) }
        ensures grows { Grows self.old self.new }
    {
        let id = self.store.leaf(decision)?;
        Ok(id)
    }

    /// The node of the level that leads as placed, and elsewhere where the node leads ([`laid`]).
    pub fn laid(&mut self, level: &[u8], node: NodeId, placed: &[Placed]) -> Result<NodeId, Memory>
        requires level { HasField level.now }
        requires node { level_of self.old node.0 ≡ level.now }
        requires rise { RiseFrom 0 (top_of level.now) placed.now }
        requires children { PlacedAt self.old (next level.now) placed.now }
        ensures level { IfOk result (λ id. level_of self.new id.0 ≡ level.now) }
        ensures answers { IfOk result (λ id. (v : ℕ) (values : List ℕ) → v ≤ top_of level.now →
            answer self.new id.0 (v ∷ values) ≡ answer self.old (led placed.now (edges_of self.old node.0) v) values) }
        ensures grows { Grows self.old self.new }
    {
        let id = laid(self.alloc, &mut self.store, level, node, placed)?;
        Ok(id)
    }

    /// The set of the values that are in one of two sets of the level.
    ///
    /// Each union is worked out once.
    pub fn union(&mut self, level: &[u8], left: NodeId, right: NodeId) -> Result<NodeId, Memory>
        requires level { IsLevel level.now }
        requires left { level_of self.old left.0 ≡ level.now }
        requires right { level_of self.old right.0 ≡ level.now }
        ensures level { IfOk result (λ id. level_of self.new id.0 ≡ level.now) }
        ensures union { IfOk result (λ id. (values : List ℕ) → AreValues level.now values →
            is_in self.new id.0 values ≡ (is_in self.old left.0 values || is_in self.old right.0 values)) }
        ensures small { IfOk result (λ id. (values : List ℕ) → AreValues level.now values →
            answer self.old left.0 values ≤ 1 → answer self.old right.0 values ≤ 1 → answer self.new id.0 values ≤ 1) }
        ensures grows { Grows self.old self.new }
    {
        let id = apply(
            self.alloc,
            &Uniting,
            &mut self.store,
            &mut self.unions,
            level,
            left,
            right,
        )?;
        Ok(id)
    }
}
