//! What the nodes of one store cost, each worked out once.
ghost use Rattle.std.specs.Prelude.{◌≡◌, ◌≢◌, ◌<◌, ◌+◌, List, All, IfOk, OnOk, length, true, slice_get, slice_index, slice_set, Some};
ghost use Rattle.node_store.specs.Diagram.{Node, level_of, edges_of};
ghost use Rattle.table_compose.specs.Diagrams.{IsCostOf};
ghost use Rattle.table_compose.specs.Plans.{IsMarked};
ghost use Rattle.table_compose.specs.Costs.{AreCostsOf, HasRoom, LearnsCosts};

use crate::labels::Labelling;
use crate::node_plan::node_cost;
use crate::room::{more_marks, more_numbers};
use bumpalo::Bump;
use node_store::{NodeId, Store};
use prefix_min::Costing;
use razor_limits::Memory;
use std::alloc::Global;

/// What nodes of one store cost, each worked out once, however many roots lead to it.
///
/// The store may gain nodes between two calls, since its old numbers keep what they mean.
#[derive(Drop)]
pub struct Costs {
    alloc: Global,
    known: Vec<bool>,
    numbers: Vec<u128>,
    labels: Labelling,
}

impl Costs {
    /// No costs yet, which suits every store.
    pub fn new(alloc: Global) -> Costs
        ensures { (nodes : List Node) → AreCostsOf nodes result }
    {
        Costs {
            alloc,
            known: Vec::new(alloc),
            numbers: Vec::new(alloc),
            labels: Labelling::new(alloc),
        }
    }

    /// Costs that are known from elsewhere: of the marked nodes, by number.
    pub(crate) fn begun(alloc: Global, known: &[bool], numbers: &[u128]) -> Result<Costs, Memory>
        ensures known { IfOk result (λ costs. costs.known.items ≡ known.now) }
        ensures numbers { IfOk result (λ costs. costs.numbers.items ≡ numbers.now) }
    {
        let mut marks = Vec::new(alloc);
        marks.extend_from_slice(known)?;
        let mut costs = Vec::new(alloc);
        costs.extend_from_slice(numbers)?;
        Ok(Costs {
            alloc,
            known: marks,
            numbers: costs,
            labels: Labelling::new(alloc),
        })
    }

    /// The field-by-field least cost of every rule list that decides as the diagram answers.
    ///
    /// Nodes that an earlier call came to are not worked out again.
    pub fn of(&mut self, store: &Store, root: NodeId) -> Result<u128, Memory>
        requires root { root.0 < length store.now }
        requires costs { AreCostsOf store.now self.old }
        ensures cost { IfOk result (λ n. IsCostOf store.now (level_of store.now root.0) root.0 n) }
        ensures costs { AreCostsOf store.now self.new }
    {
        self.make_room(store.count())?;
        let arena = Bump::new(self.alloc);
        let mut costing = Costing::new(self.alloc, &arena);
        self.learn(&mut costing, store, root)?;
        Ok(self.known_cost(root))
    }

    /// What the node costs, for which there is room.
    fn known_cost(&self, id: NodeId) -> u128
        requires { id.0 < length self.now.numbers.items }
        ensures { result ≡ slice_index self.now.numbers.items id.0 }
    {
        self.numbers[id.0 as usize]
    }

    /// Works out the nodes of a diagram that aren't known, each after its children.
    fn learn(&mut self, costing: &mut Costing, store: &Store, id: NodeId) -> Result<(), Memory>
        requires number { id.0 < length store.now }
        requires room { HasRoom self.old (id.0 + 1) }
        requires costs { AreCostsOf store.now self.old }
        ensures learns { LearnsCosts store.now self.old self.new }
        ensures known { OnOk result (IsMarked self.new.known.items id.0) }
    {
        if self.known[id.0 as usize] {
            return Ok(());
        }
        store.same_answers();
        let edges = store.edges(id);
        for edge in edges {
            if self.known[edge.to.0 as usize] {
                continue;
            }
            self.learn(costing, store, edge.to)?;
        }
        self.work_out(costing, store, id)
    }

    /// Works out a node whose children are known.
    fn work_out(&mut self, costing: &mut Costing, store: &Store, id: NodeId) -> Result<(), Memory>
        requires number { id.0 < length store.now }
        requires room { HasRoom self.old (id.0 + 1) }
        requires costs { AreCostsOf store.now self.old }
        requires children { All (λ e. IsMarked self.old.known.items e.to.0) (edges_of store.now id.0) }
        ensures learns { LearnsCosts store.now self.old self.new }
        ensures known { OnOk result (IsMarked self.new.known.items id.0) }
    {
        let costs = self.numbers.as_slice();
        let cost = node_cost(&mut self.labels, costing, store, costs, id)?;
        self.keep(id, cost);
        Ok(())
    }

    /// Keeps what a node costs.
    fn keep(&mut self, id: NodeId, cost: u128)
        requires known { id.0 < length self.old.known.items }
        requires numbers { id.0 < length self.old.numbers.items }
        ensures known { self.new.known.items ≡ slice_set self.old.known.items id.0 true }
        ensures numbers { self.new.numbers.items ≡ slice_set self.old.numbers.items id.0 cost }
        ensures places { length self.new.labels.children.places.items ≡ length self.old.labels.children.places.items }
    {
        self.known[id.0 as usize] = true;
        self.numbers[id.0 as usize] = cost;
    }

    /// Makes room for the costs of so many nodes, the first of the store.
    fn make_room(&mut self, count: usize) -> Result<(), Memory>
        ensures costs { (nodes : List Node) → AreCostsOf nodes self.old → AreCostsOf nodes self.new }
        ensures room { OnOk result (HasRoom self.new count) }
    {
        more_marks(&mut self.known, count)?;
        more_numbers(&mut self.numbers, count)?;
        self.labels.children.make_room(count)?;
        Ok(())
    }
}
