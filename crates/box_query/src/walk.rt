//! The walk over a diagram that writes the boxes of the values at which it answers 1.

ghost use Rattle.std.specs.Prelude.{◌≡◌};
ghost use Rattle.node_store.specs.Levels.{HasField, next};

use crate::line::Line;
use node_store::{Edge, NodeId, Store};
use razor_base::{Failed, Pending, Sink};

/// The level after the first field of this one.
fn rest_of(level: &[u8]) -> &[u8]
    requires { HasField level.now }
    ensures { result.now ≡ next level.now }
{
    &level[1..]
}

/// A walk over a diagram of a store.
#[derive(Drop)]
pub(crate) struct Walk<'a> {
    pub store: &'a Store,
}

impl<'a> Walk<'a> {
    ghost use Rattle.std.specs.Prelude.{◌≡◌, ◌≤◌, ◌+◌, ◌*◌, suc, [], length, nat_eq, IfOk};
    ghost use Rattle.std.specs.Bool.{OnTrue};
    ghost use Rattle.razor_base.specs.Output.{Puts};
    ghost use Rattle.node_store.specs.Levels.{HasField, IsLevel};
    ghost use Rattle.node_store.specs.Diagram.{level_of, answer};
    ghost use Rattle.box_query.specs.NodeBoxes.{branch, branch_boxes, front_text, node_boxes};

    /// Puts the boxes of a node of a level behind a line, and says how many they are.
    #[cycle(walk)]
    pub fn boxes<K: Sink>(
        &self,
        level: &[u8],
        id: NodeId,
        line: &Line,
        pending: &mut Pending,
        out: &mut K,
    ) -> Result<u128, Failed>
        requires level { HasField level.now }
        requires id { level_of self.now.store.now id.0 ≡ level.now }
        requires room { length line.now + 22 * length level.now ≤ 110 }
        ensures text { Puts K.written K.faults out.old out.new pending.old pending.new (front_text line.now (node_boxes self.now.store.now level.now id.0)) result }
        ensures count { IfOk result (λ n. n ≡ length (node_boxes self.now.store.now level.now id.0)) }
    {
        self.store.same_answers();
        let rest = rest_of(level);
        let edges = self.store.edges(id);
        let mut boxes = 0;
        let mut lo = 0;
        for edge in edges {
            boxes += self.branch(rest, lo, *edge, line, pending, out)?;
            lo = edge.hi.saturating_add(1);
        }
        Ok(boxes)
    }

    /// Puts the boxes of an edge to a node of a level, from a value on.
    #[cycle(walk)]
    fn branch<K: Sink>(
        &self,
        level: &[u8],
        lo: u32,
        edge: Edge,
        line: &Line,
        pending: &mut Pending,
        out: &mut K,
    ) -> Result<u128, Failed>
        requires level { IsLevel level.now }
        requires id { level_of self.now.store.now edge.to.0 ≡ level.now }
        requires room { length line.now + 22 * suc (length level.now) ≤ 110 }
        ensures text { Puts K.written K.faults out.old out.new pending.old pending.new (front_text line.now (branch_boxes (node_boxes self.now.store.now level.now) (branch lo edge))) result }
        ensures count { IfOk result (λ n. n ≡ length (branch_boxes (node_boxes self.now.store.now level.now) (branch lo edge))) }
    {
        if level.is_empty() {
            return self.last(lo, edge, line, pending, out);
        }
        if self.is_empty(level, edge.to) {
            return Ok(0);
        }
        let line = line.with(lo, edge.hi, b' ');
        self.boxes(level, edge.to, &line, pending, out)
    }

    /// Puts the box of an edge to a leaf, from a value on, if the leaf answers 1.
    fn last<K: Sink>(
        &self,
        lo: u32,
        edge: Edge,
        line: &Line,
        pending: &mut Pending,
        out: &mut K,
    ) -> Result<u128, Failed>
        requires id { level_of self.now.store.now edge.to.0 ≡ [] }
        requires room { length line.now + 22 ≤ 110 }
        ensures text { Puts K.written K.faults out.old out.new pending.old pending.new (front_text line.now (branch_boxes (node_boxes self.now.store.now []) (branch lo edge))) result }
        ensures count { IfOk result (λ n. n ≡ length (branch_boxes (node_boxes self.now.store.now []) (branch lo edge))) }
    {
        if !self.is_wanted(edge.to) {
            return Ok(0);
        }
        let line = line.with(lo, edge.hi, b'\n');
        pending.put(out, line.bytes())?;
        Ok(1)
    }

    /// Whether a leaf answers 1.
    fn is_wanted(&self, id: NodeId) -> bool
        requires { level_of self.now.store.now id.0 ≡ [] }
        ensures { result ≡ nat_eq (answer self.now.store.now id.0 []) 1 }
    {
        self.store.decision(id).unwrap_or(0) == 1
    }

    /// Whether a node of a level leads on and on to one leaf, which doesn't answer 1. No other node has
    /// no box.
    fn is_empty(&self, level: &[u8], id: NodeId) -> bool
        requires level { IsLevel level.now }
        requires id { level_of self.now.store.now id.0 ≡ level.now }
        ensures { OnTrue result (node_boxes self.now.store.now level.now id.0 ≡ []) }
    {
        if level.is_empty() {
            return !self.is_wanted(id);
        }
        let edges = self.store.edges(id);
        if edges.len() > 1 {
            return false;
        }
        self.is_empty(rest_of(level), edges[0].to)
    }
}
