//! The walk that meets the headers of a diagram of labels in rising order.
//!
//! A node is gone through once, at the least header that leads to it: what it answers later on, it has
//! answered before.

use crate::headers::with_value;
use crate::label::Label;
use crate::state::{RuleState, meet};
use field_boxes::Header;
use node_store::{Edge, NodeId, Store};

/// A walk over the diagram under a node, with the number of the first label.
#[derive(Clone, Copy)]
pub(crate) struct LabelWalk<'a> {
    pub store: &'a Store,
    pub root: NodeId,
    pub first: u32,
}

impl<'a> LabelWalk<'a> {
    ghost use Rattle.std.specs.Prelude.{◌≡◌, ◌<◌, ◌≤◌, ◌+◌, ◌++◌, ◌∷◌, ℕ, suc, List, [], length, take, drop, slice_index_or};
    ghost use Rattle.field_boxes.specs.Headline.Fields.{stated, IsHeader};
    ghost use Rattle.field_boxes.specs.Fields.{greatest_of};
    ghost use Rattle.node_store.specs.Diagram.{level_of};
    ghost use Rattle.rule_audit.specs.declared.state.RuleState.{RuleState};
    ghost use Rattle.rule_audit.specs.declared.state.RuleState.TheVariants.{Never};
    ghost use Rattle.rule_audit.specs.Meeting.{AreMet, Before, IsMarked, LeadsTo, UpTo};

    /// The states after all headers, where they were those before any.
    pub fn all(&self, seen: &mut [bool], states: &mut [RuleState])
        requires root { level_of self.now.store.now self.now.root.0 ≡ stated }
        requires room { length seen.old ≡ length self.now.store.now }
        requires unseen { (id : ℕ) → IsMarked seen.old id → ⊥ }
        requires states { (k : ℕ) (d : RuleState) → k < length states.old → slice_index_or states.old k d ≡ Never }
        ensures met { AreMet self.now.first self.now.store.now self.now.root.0 IsHeader seen.new states.new }
        ensures count { length states.new ≡ length states.old }
    {
        self.edges(self.root, 0, Header { values: [0; 5] }, seen, states);
    }

    /// Goes on under a node, unless it was seen; the header begins with the values that lead there.
    #[cycle(meeting)]
    fn node(
        &self,
        id: NodeId,
        depth: usize,
        header: Header,
        seen: &mut [bool],
        states: &mut [RuleState],
    )
        requires depth { depth ≤ 5 }
        requires level { level_of self.now.store.now id.0 ≡ drop depth stated }
        requires leads { LeadsTo self.now.store.now self.now.root.0 (take depth header.values) id.0 }
        requires room { length seen.old ≡ length self.now.store.now }
        requires met { AreMet self.now.first self.now.store.now self.now.root.0 (Before (take depth header.values)) seen.old states.old }
        ensures met { AreMet self.now.first self.now.store.now self.now.root.0 (UpTo (take depth header.values)) seen.new states.new }
    {
        self.store.same_answers();
        if seen[id.0 as usize] {
            return;
        }
        self.worked_out(id, depth, header, seen, states);
        seen[id.0 as usize] = true;
    }

    /// Meets a leaf, or goes on under the edges of an inner node.
    #[cycle(meeting)]
    fn worked_out(
        &self,
        id: NodeId,
        depth: usize,
        header: Header,
        seen: &mut [bool],
        states: &mut [RuleState],
    )
        requires depth { depth ≤ 5 }
        requires level { level_of self.now.store.now id.0 ≡ drop depth stated }
        requires leads { LeadsTo self.now.store.now self.now.root.0 (take depth header.values) id.0 }
        requires room { length seen.old ≡ length self.now.store.now }
        requires met { AreMet self.now.first self.now.store.now self.now.root.0 (Before (take depth header.values)) seen.old states.old }
        ensures met { AreMet self.now.first self.now.store.now self.now.root.0 (UpTo (take depth header.values)) seen.new states.new }
    {
        if depth == 5 {
            let number = self.store.decision(id).unwrap_or(0);
            meet(states, Label::at(self.first, number), header);
        } else {
            self.edges(id, depth, header, seen, states);
        }
    }

    /// Goes on under each edge of a node.
    #[cycle(meeting)]
    fn edges(
        &self,
        id: NodeId,
        depth: usize,
        header: Header,
        seen: &mut [bool],
        states: &mut [RuleState],
    )
        requires depth { depth < 5 }
        requires level { level_of self.now.store.now id.0 ≡ drop depth stated }
        requires leads { LeadsTo self.now.store.now self.now.root.0 (take depth header.values) id.0 }
        requires room { length seen.old ≡ length self.now.store.now }
        requires met { AreMet self.now.first self.now.store.now self.now.root.0 (Before (take depth header.values)) seen.old states.old }
        ensures met { AreMet self.now.first self.now.store.now self.now.root.0 (Before (take depth header.values ++ suc (greatest_of depth) ∷ [])) seen.new states.new }
    {
        self.store.same_answers();
        let edges = self.store.edges(id);
        let mut lo: u64 = 0;
        for edge in edges {
            self.edge(*edge, lo as u32, depth, header, seen, states);
            lo = u64::from(edge.hi) + 1;
        }
    }

    /// Goes on under the values of an edge, of which the first stands for all.
    #[cycle(meeting)]
    fn edge(
        &self,
        edge: Edge,
        lo: u32,
        depth: usize,
        header: Header,
        seen: &mut [bool],
        states: &mut [RuleState],
    )
        requires depth { depth < 5 }
        requires rises { lo ≤ edge.hi }
        requires within { edge.hi ≤ greatest_of depth }
        requires level { level_of self.now.store.now edge.to.0 ≡ drop (suc depth) stated }
        requires leads { (v : ℕ) → lo ≤ v → v ≤ edge.hi → LeadsTo self.now.store.now self.now.root.0 (take depth header.values ++ v ∷ []) edge.to.0 }
        requires room { length seen.old ≡ length self.now.store.now }
        requires met { AreMet self.now.first self.now.store.now self.now.root.0 (Before (take depth header.values ++ lo ∷ [])) seen.old states.old }
        ensures met { AreMet self.now.first self.now.store.now self.now.root.0 (Before (take depth header.values ++ suc edge.hi ∷ [])) seen.new states.new }
    {
        let header = with_value(header, depth, lo);
        self.node(edge.to, depth + 1, header, seen, states);
    }
}
