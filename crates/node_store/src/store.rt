//! The store, and what it tells of its nodes.
ghost use Rattle.std.specs.Prelude.{◌≡◌, ◌<◌, ◌≤◌, ◌↔◌, ℕ, List, [], ◌∷◌, length, slice_get, Some, IsNone, IfOk, OnErr};
ghost use Rattle.field_boxes.specs.Alike.{AreAlikeOver};
ghost use Rattle.node_store.specs.Levels.{HasField, IsLevel, next, top_of};
ghost use Rattle.node_store.specs.Diagram.{level_of, edges_of, decision_of, answer};
ghost use Rattle.node_store.specs.Diagram.Node.{Leaf, Inner};
ghost use Rattle.node_store.specs.Edges.{AreFull, child_of, merged};
ghost use Rattle.node_store.specs.Store.{IsStore, IsInner, FitsAt, LeadTo, Grows, IsNumbered};
ghost use Rattle.node_store.specs.Nodes.{node_of};

use crate::edge::{Edge, NodeId};
use crate::laws::edges_in_turn;
use crate::level::Level;
use crate::merge::merge;
use crate::node::Node;
use field_boxes::greatest;
use indexmap::IndexSet;
use razor_limits::Memory;
use std::alloc::Global;
use std::marker::Model;

/// Diagrams whose nodes have numbers: the place of a node in the set is its number.
///
/// A number keeps its meaning for good, and one function has one number: equal nodes are one node, so
/// to compare two diagrams is to compare two numbers.
#[derive(Drop)]
pub struct Store {
    nodes: IndexSet<Node>,
}

impl Model for Store {
    ghost use Rattle.std.specs.Prelude.{List, map};
    ghost use Rattle.node_store.specs.Diagram.{Node as Seen};
    ghost use Rattle.node_store.specs.Store.{IsStore};
    ghost use Rattle.node_store.specs.Nodes.{node_of};

    ghost Value = { List Seen };

    ghost view = { λ s. map node_of s.nodes.keys };

    ghost invariant = { λ s. IsStore (map node_of s.nodes.keys) };
}

impl Store {
    /// A store of no nodes.
    pub fn new(alloc: Global) -> Store
        ensures { result ≡ [] }
    {
        Store {
            nodes: IndexSet::new(alloc),
        }
    }

    /// How many nodes the store has.
    pub fn count(&self) -> usize
        ensures { result ≡ length self.now }
    {
        self.nodes.len()
    }

    /// The node under the number.
    fn node(&self, id: NodeId) -> &Node
        requires { id.0 < length self.now }
        ensures found { slice_get self.now id.0 ≡ Some (node_of result.now) }
        ensures fits { FitsAt self.now id.0 (node_of result.now) }
    {
        &self.nodes[id.0 as usize]
    }

    /// The fields that are read from the node on, its own first; none for a leaf.
    pub fn level(&self, id: NodeId) -> &[u8]
        requires { id.0 < length self.now }
        ensures level { result.now ≡ level_of self.now id.0 }
        ensures within { IsLevel result.now }
    {
        match self.node(id) {
            Node::Leaf(_) => &[],
            Node::Inner { level, .. } => level.as_slice(),
        }
    }

    /// The decision of a leaf, none of an inner node.
    pub fn decision(&self, id: NodeId) -> Option<u32>
        requires { id.0 < length self.now }
        ensures decision { result ≡ decision_of self.now id.0 }
        ensures none { IsNone result ↔ HasField (level_of self.now id.0) }
    {
        match self.node(id) {
            Node::Leaf(decision) => Some(*decision),
            Node::Inner { .. } => None,
        }
    }

    /// The edges of an inner node, which fill its field in rising order and lead apart; none of a leaf.
    pub fn edges(&self, id: NodeId) -> &[Edge]
        requires { id.0 < length self.now }
        ensures edges { result.now ≡ edges_of self.now id.0 }
        ensures leaf { level_of self.now id.0 ≡ [] → result.now ≡ [] }
        ensures inner { HasField (level_of self.now id.0) → IsInner self.now id.0 (level_of self.now id.0) result.now }
    {
        match self.node(id) {
            Node::Leaf(_) => &[],
            Node::Inner { edges, .. } => edges.as_slice(),
        }
    }

    /// The number of the leaf with the decision, which the store gains where it isn't there.
    ///
    /// After a refusal of memory the store is as it was, here and in [`Store::make`].
    pub fn leaf(&mut self, decision: u32) -> Result<NodeId, Memory>
        ensures numbered { IfOk result (λ id. IsNumbered self.old self.new (Leaf decision) id.0) }
        ensures number { IfOk result (λ id. id.0 < length self.new) }
        ensures level { IfOk result (λ id. level_of self.new id.0 ≡ []) }
        ensures decision { IfOk result (λ id. decision_of self.new id.0 ≡ Some decision) }
        ensures grows { Grows self.old self.new }
        ensures err { OnErr result (self.new ≡ self.old) }
    {
        self.add(Node::Leaf(decision))
    }

    /// The number of the node of the level with these edges, which the store gains where it isn't there.
    ///
    /// Equal neighbours are merged: the node has the fewest edges that lead as those handed in.
    pub fn make(&mut self, level: &[u8], edges: &[Edge]) -> Result<NodeId, Memory>
        requires field { HasField level.now }
        requires full { AreFull (top_of level.now) edges.now }
        requires children { LeadTo self.old (next level.now) edges.now }
        ensures numbered { IfOk result (λ id. IsNumbered self.old self.new (Inner level.now (merged edges.now)) id.0) }
        ensures number { IfOk result (λ id. id.0 < length self.new) }
        ensures level { IfOk result (λ id. level_of self.new id.0 ≡ level.now) }
        ensures edges { IfOk result (λ id. edges_of self.new id.0 ≡ merged edges.now) }
        ensures answers { IfOk result (λ id. (v : ℕ) (values : List ℕ) → v ≤ top_of level.now →
            answer self.new id.0 (v ∷ values) ≡ answer self.old (child_of edges.now v) values) }
        ensures grows { Grows self.old self.new }
        ensures err { OnErr result (self.new ≡ self.old) }
    {
        let edges = merge(self.allocator(), edges)?;
        let level = Level::of(level);
        self.add(Node::Inner { level, edges })
    }

    /// The number of the node of the level that leads everywhere to one node.
    pub fn everywhere(&mut self, level: &[u8], to: NodeId) -> Result<NodeId, Memory>
        requires field { HasField level.now }
        requires level { level_of self.old to.0 ≡ next level.now }
        ensures level { IfOk result (λ id. level_of self.new id.0 ≡ level.now) }
        ensures answers { IfOk result (λ id. (v : ℕ) (values : List ℕ) → v ≤ top_of level.now → answer self.new id.0 (v ∷ values) ≡ answer self.old to.0 values) }
        ensures grows { Grows self.old self.new }
    {
        edges_in_turn();
        let hi = greatest(usize::from(level[0]));
        let id = self.make(level, &[Edge { hi, to }])?;
        Ok(id)
    }

    /// The number of the node, which the store gains where it isn't there. A store whose numbers are used up takes none.
    fn add(&mut self, node: Node) -> Result<NodeId, Memory>
        requires { FitsAt self.old (length self.old) (node_of node) }
        ensures numbered { IfOk result (λ id. IsNumbered self.old self.new (node_of node) id.0) }
        ensures number { IfOk result (λ id. id.0 < length self.new) }
        ensures grows { Grows self.old self.new }
        ensures err { OnErr result (self.new ≡ self.old) }
    {
        if self.count() > u32::MAX as usize {
            return Err(Memory);
        }
        let (number, _added) = self.nodes.insert_full(node)?;
        Ok(NodeId(number as u32))
    }

    /// Where the store takes its memory from.
    pub(crate) fn allocator(&self) -> Global {
        *self.nodes.allocator()
    }

    /// Two nodes of one level that answer alike on all values of its fields have one number.
    ///
    /// The call does nothing: it tells its caller what holds of every store.
    pub fn same_answers(&self)
        ensures store { IsStore self.now }
        ensures same { (level : List ℕ) (a b : ℕ) → IsLevel level → level_of self.now a ≡ level → level_of self.now b ≡ level →
            AreAlikeOver level (answer self.now a) (answer self.now b) → a ≡ b }
    {
        let _nodes = &self.nodes;
    }
}
