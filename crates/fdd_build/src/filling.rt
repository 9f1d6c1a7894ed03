//! Edges that fill a field's values from the least one on.

use field_boxes::Span;
use node_store::{Edge, NodeId, laws};
use razor_limits::Memory;
use smallvec::SmallVec;
use std::alloc::Global;

/// The edges before, in and after an interval; more for a union.
pub(crate) type Edges = SmallVec<Edge, 3>;

/// Edges that fill the values of a field below some value.
#[derive(Drop)]
pub(crate) struct Filling {
    pub edges: Edges,
    /// So many values are filled: at most 2^32.
    pub filled: u64,
}

impl Filling {
    ghost use Rattle.std.specs.Prelude.{◌≡◌, ◌≤◌, ◌+◌, ℕ, List, [], nat_le, nat_lt, if◌then◌else◌, OnOk};
    ghost use Rattle.node_store.specs.Diagram.{Node, level_of};
    ghost use Rattle.node_store.specs.Edges.{child_of};
    ghost use Rattle.node_store.specs.Store.{LeadTo};
    ghost use Rattle.fdd_build.specs.Sets.{FillBelow};

    /// No value is filled.
    pub fn new(alloc: Global) -> Filling
        ensures filled { result.filled ≡ 0 }
        ensures edges { result.edges.items ≡ [] }
    {
        Filling {
            edges: SmallVec::new(alloc),
            filled: 0,
        }
    }

    /// Leads the values up to one, of those that aren't filled, to a node.
    pub fn lead(&mut self, hi: u32, to: NodeId) -> Result<(), Memory>
        requires above { self.old.filled ≤ hi }
        requires full { FillBelow self.old.filled self.old.edges.items }
        ensures filled { OnOk result (self.new.filled ≡ hi + 1) }
        ensures full { OnOk result (FillBelow self.new.filled self.new.edges.items) }
        ensures leads { OnOk result ((v : ℕ) → v ≤ hi →
            child_of self.new.edges.items v ≡ (if nat_lt v self.old.filled then child_of self.old.edges.items v else to.0)) }
        ensures children { OnOk result ((nodes : List Node) (level : List ℕ) → level_of nodes to.0 ≡ level →
            LeadTo nodes level self.old.edges.items → LeadTo nodes level self.new.edges.items) }
    {
        laws::edges_in_turn();
        self.edges.push(Edge { hi, to })?;
        self.filled = u64::from(hi) + 1;
        Ok(())
    }

    /// Leads the span inside, and the values before it that aren't filled outside.
    pub fn take(&mut self, span: Span, inside: NodeId, outside: NodeId) -> Result<(), Memory>
        requires above { self.old.filled ≤ span.lo }
        requires full { FillBelow self.old.filled self.old.edges.items }
        ensures filled { OnOk result (self.new.filled ≡ span.hi + 1) }
        ensures full { OnOk result (FillBelow self.new.filled self.new.edges.items) }
        ensures leads { OnOk result ((v : ℕ) → v ≤ span.hi → child_of self.new.edges.items v ≡
            (if nat_lt v self.old.filled then child_of self.old.edges.items v else (if nat_le span.lo v then inside.0 else outside.0))) }
        ensures children { OnOk result ((nodes : List Node) (level : List ℕ) → level_of nodes inside.0 ≡ level → level_of nodes outside.0 ≡ level →
            LeadTo nodes level self.old.edges.items → LeadTo nodes level self.new.edges.items) }
    {
        if self.filled < u64::from(span.lo) {
            self.lead(span.lo - 1, outside)?;
        }
        self.lead(span.hi, inside)?;
        Ok(())
    }
}
