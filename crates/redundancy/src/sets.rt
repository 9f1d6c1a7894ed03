//! Sets of values and answers of contexts, as diagrams of one store.

use field_boxes::Span;
use field_sets::{Placed, put_parts};
use node_store::{NodeId, Parts};
use razor_limits::Memory;
use std::alloc::Global;
use std::marker::Model;

/// Diagrams, and the unions that were worked out before.
#[derive(Drop)]
pub(crate) struct Sets {
    sets: field_sets::Sets,
}

impl Model for Sets {
    ghost use Rattle.std.specs.Prelude.{List};
    ghost use Rattle.node_store.specs.Diagram.{Node};

    ghost Value = { List Node };

    ghost view = { λ s. s.sets };
}

impl Sets {
    ghost use Rattle.std.specs.Prelude.{◌≡◌, ◌≤◌, ℕ, List, [], ◌∷◌, true, length, map, IfOk, OnOk};
    ghost use Rattle.field_boxes.specs.Headline.Fields.{AreValues};
    ghost use Rattle.node_store.specs.Levels.{HasField, IsLevel, next, top_of};
    ghost use Rattle.node_store.specs.Diagram.{answer, edges_of, level_of};
    ghost use Rattle.node_store.specs.Store.{Grows, IsStore, LeadTo};
    ghost use Rattle.node_store.specs.Split.{to_left, to_right};
    ghost use Rattle.redundancy_laws.specs.Sifted.{IsUnion, is_in};
    ghost use Rattle.field_sets.specs.Parting.{IsSplitWithin};
    ghost use Rattle.field_sets.specs.Placed.{PlacedAt, RiseFrom, led};

    /// No diagrams.
    pub fn new(alloc: Global) -> Sets
        ensures { result ≡ [] }
    {
        let sets = field_sets::Sets::new(alloc);
        Sets { sets }
    }

    /// How many nodes they have.
    pub fn count(&self) -> usize
        ensures { result ≡ length self.now }
    {
        self.sets.store().count()
    }

    /// What holds of every store: the call does nothing.
    pub fn is_store(&self)
        ensures { IsStore self.now }
    {
        self.sets.store().same_answers();
    }

    /// The empty set of the level.
    pub fn none(&mut self, level: &[u8]) -> Result<NodeId, Memory>
        requires { IsLevel level.now }
        ensures level { IfOk result (λ id. level_of self.new id.0 ≡ level.now) }
        ensures empty { IfOk result (λ id. (values : List ℕ) → AreValues level.now values → answer self.new id.0 values ≡ 0) }
        ensures grows { Grows self.old self.new }
    {
        let id = self.sets.none(level)?;
        Ok(id)
    }

    /// The full set where no field is left.
    pub fn full(&mut self) -> Result<NodeId, Memory>
        ensures level { IfOk result (λ id. level_of self.new id.0 ≡ []) }
        ensures full { IfOk result (λ id. is_in self.new id.0 [] ≡ true) }
        ensures grows { Grows self.old self.new }
    {
        let id = self.sets.full(&[])?;
        Ok(id)
    }

    /// The leaf with the decision.
    pub fn leaf(&mut self, decision: u32) -> Result<NodeId, Memory>
        ensures level { IfOk result (λ id. level_of self.new id.0 ≡ []) }
        ensures answer { IfOk result (λ id. answer self.new id.0 [] ≡ decision) }
        ensures grows { Grows self.old self.new }
    {
        let id = self.sets.leaf(decision)?;
        Ok(id)
    }

    /// What the leaf answers.
    pub fn last(&self, id: NodeId) -> u32
        requires { level_of self.now id.0 ≡ [] }
        ensures { result ≡ answer self.now id.0 [] }
    {
        self.sets.store().decision(id).unwrap_or(0)
    }

    /// The set of the values that are in one of two sets of the level.
    pub fn union(&mut self, level: &[u8], left: NodeId, right: NodeId) -> Result<NodeId, Memory>
        requires within { IsLevel level.now }
        requires left { level_of self.old left.0 ≡ level.now }
        requires right { level_of self.old right.0 ≡ level.now }
        ensures level { IfOk result (λ id. level_of self.new id.0 ≡ level.now) }
        ensures union { IfOk result (λ id. IsUnion self.new level.now left.0 right.0 id.0) }
        ensures grows { Grows self.old self.new }
    {
        let id = self.sets.union(level, left, right)?;
        Ok(id)
    }

    /// The node of the level that leads, at the values of each of the spans, where that leads, and elsewhere where
    /// the node leads.
    pub fn laid(&mut self, level: &[u8], node: NodeId, placed: &[Placed]) -> Result<NodeId, Memory>
        requires level { HasField level.now }
        requires node { level_of self.old node.0 ≡ level.now }
        requires rise { RiseFrom 0 (top_of level.now) placed.now }
        requires children { PlacedAt self.old (next level.now) placed.now }
        ensures level { IfOk result (λ id. level_of self.new id.0 ≡ level.now) }
        ensures answers { IfOk result (λ id. (v : ℕ) (values : List ℕ) → v ≤ top_of level.now →
            answer self.new id.0 (v ∷ values) ≡ answer self.old (led placed.now (edges_of self.old node.0) v) values) }
        ensures grows { Grows self.old self.new }
    {
        let id = self.sets.laid(level, node, placed)?;
        Ok(id)
    }

    /// Puts into the list the parts of the span on which each of two inner nodes of one level leads to one child, in
    /// rising order.
    pub fn put_parts(
        &self,
        left: NodeId,
        right: NodeId,
        span: Span,
        parts: &mut Parts,
    ) -> Result<(), Memory>
        requires inner { HasField (level_of self.now left.0) }
        requires level { level_of self.now right.0 ≡ level_of self.now left.0 }
        requires span { span.hi ≤ top_of (level_of self.now left.0) }
        ensures split { OnOk result (IsSplitWithin span.lo span.hi (edges_of self.now left.0) (edges_of self.now right.0) parts.new.items) }
        ensures left { OnOk result (LeadTo self.now (next (level_of self.now left.0)) (map to_left parts.new.items)) }
        ensures right { OnOk result (LeadTo self.now (next (level_of self.now left.0)) (map to_right parts.new.items)) }
    {
        put_parts(self.sets.store(), left, right, span, parts)?;
        Ok(())
    }
}
