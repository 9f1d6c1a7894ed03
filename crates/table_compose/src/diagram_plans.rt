//! The plans of nodes, each worked out once.
ghost use Rattle.std.specs.Prelude.{◌≡◌, ◌≢◌, ◌<◌, ◌≤◌, ◌+◌, List, All, Some, true, length, slice_get, slice_index, slice_set, IfErr, IfOk, IsNone, IsTrue, OnOk};
ghost use Rattle.node_store.specs.Levels.{IsLevel};
ghost use Rattle.node_store.specs.Diagram.{Node, level_of, edges_of};
ghost use Rattle.table_compose.specs.Composed.{HaveCosts, HaveLists, IsRefusal};
ghost use Rattle.table_compose.specs.Diagrams.{IsCostOf};
ghost use Rattle.table_compose.specs.Plans.{ArePlansOf, HasMoreRoom, HasRoom, IsMarked, KeepsPlans, LearnsBelow};
ghost use Rattle.table_compose.specs.Rows.{rows_at, rows_of};

use crate::composition::ComposeError;
use crate::costs::Costs;
use crate::labels::Labelling;
use crate::node_plan::NodePlan;
use crate::room::{more_lists, more_marks, more_numbers};
use crate::row::Row;
use bumpalo::Bump;
use node_store::{NodeId, Store};
use prefix_min::Costing;
use razor_limits::Memory;
use std::alloc::Global;

/// What nodes of one store cost, and their prefix lists, by their numbers; each is worked out once.
///
/// The store may gain nodes between two calls, since its old numbers keep what they mean.
#[derive(Drop)]
pub struct Plans {
    pub known: Vec<bool>,
    pub costs: Vec<u128>,
    pub lists: Vec<Vec<Row>>,
    labels: Labelling,
}

impl Plans {
    /// No plans, which suits every store.
    pub fn new(alloc: Global) -> Plans
        ensures { (nodes : List Node) → ArePlansOf nodes result }
    {
        Plans {
            known: Vec::new(alloc),
            costs: Vec::new(alloc),
            lists: Vec::new(alloc),
            labels: Labelling::new(alloc),
        }
    }

    /// Works out what isn't known of the nodes of a diagram, and refuses it where it costs more than the limit.
    pub fn learn(
        &mut self,
        alloc: Global,
        store: &Store,
        order: &[u8],
        root: NodeId,
        limit: u32,
    ) -> Result<(), ComposeError>
        requires order { IsLevel order.now }
        requires root { level_of store.now root.0 ≡ order.now }
        requires plans { ArePlansOf store.now self.old }
        ensures known { OnOk result (IsMarked self.new.known.items root.0) }
        ensures lists { OnOk result (HaveLists store.now (rows_at self.new.lists.items) order.now root.0) }
        // A node costs what the nodes of its rows cost together, and a leaf one entry.
        ensures costs { OnOk result (HaveCosts store.now (rows_at self.new.lists.items) self.new.costs.items order.now root.0) }
        ensures room { OnOk result (root.0 < length self.new.costs.items) }
        ensures least { OnOk result (IsCostOf store.now order.now root.0 (slice_index self.new.costs.items root.0)) }
        ensures within { OnOk result (slice_index self.new.costs.items root.0 ≤ limit) }
        ensures refusal { IfErr result (λ e. IsRefusal store.now order.now root.0 limit e) }
        // What is kept stays true, also after a refusal.
        ensures plans { ArePlansOf store.now self.new }
        ensures earlier { KeepsPlans self.old self.new }
    {
        store.same_answers();
        self.learn_within(alloc, store, order, root, limit)?;
        let needed = self.cost(root);
        if needed > u128::from(limit) {
            return Err(ComposeError::TooMany { needed, limit });
        }
        Ok(())
    }

    /// Works out the nodes of a diagram, unless it costs more than the limit and a node above the limit is met.
    fn learn_within(
        &mut self,
        alloc: Global,
        store: &Store,
        order: &[u8],
        root: NodeId,
        limit: u32,
    ) -> Result<(), ComposeError>
        requires order { IsLevel order.now }
        requires root { level_of store.now root.0 ≡ order.now }
        requires plans { ArePlansOf store.now self.old }
        ensures plans { ArePlansOf store.now self.new }
        ensures earlier { KeepsPlans self.old self.new }
        ensures known { OnOk result (IsMarked self.new.known.items root.0) }
        ensures refusal { IfErr result (λ e. IsRefusal store.now order.now root.0 limit e) }
    {
        let whole = self.learn_all(alloc, store, root, Some(u128::from(limit)))?;
        if whole {
            return Ok(());
        }
        self.learn_costly(alloc, store, order, root, limit)
    }

    /// The same behind a node above the limit: what the diagram costs is found first, with no lists.
    fn learn_costly(
        &mut self,
        alloc: Global,
        store: &Store,
        order: &[u8],
        root: NodeId,
        limit: u32,
    ) -> Result<(), ComposeError>
        requires order { IsLevel order.now }
        requires root { level_of store.now root.0 ≡ order.now }
        requires plans { ArePlansOf store.now self.old }
        ensures plans { ArePlansOf store.now self.new }
        ensures earlier { KeepsPlans self.old self.new }
        ensures known { OnOk result (IsMarked self.new.known.items root.0) }
        ensures refusal { IfErr result (λ e. IsRefusal store.now order.now root.0 limit e) }
    {
        store.same_answers();
        let mut costs = Costs::begun(alloc, self.known.as_slice(), self.costs.as_slice())?;
        let needed = costs.of(store, root)?;
        if needed > u128::from(limit) {
            return Err(ComposeError::TooMany { needed, limit });
        }
        let _whole = self.learn_all(alloc, store, root, None)?;
        Ok(())
    }

    /// Works out the nodes of a diagram that aren't known, in one room, or stops behind a node that costs more than
    /// the most.
    fn learn_all(
        &mut self,
        alloc: Global,
        store: &Store,
        root: NodeId,
        most: Option<u128>,
    ) -> Result<bool, Memory>
        requires root { root.0 < length store.now }
        requires plans { ArePlansOf store.now self.old }
        ensures plans { ArePlansOf store.now self.new }
        ensures earlier { KeepsPlans self.old self.new }
        ensures known { IfOk result (λ whole. IsTrue whole → IsMarked self.new.known.items root.0) }
        ensures whole { IfOk result (λ whole. IsNone most → IsTrue whole) }
    {
        store.same_answers();
        self.make_room(alloc, store.count())?;
        let arena = Bump::new(alloc);
        let mut costing = Costing::new(alloc, &arena);
        let whole = self.learn_node(alloc, &mut costing, store, root, most)?;
        Ok(whole)
    }

    /// Works out the nodes of a diagram that aren't known, each after its children, or stops behind a node that
    /// costs more than the most. A node costs no less than each of its children, so a known child is passed over.
    fn learn_node(
        &mut self,
        alloc: Global,
        costing: &mut Costing,
        store: &Store,
        id: NodeId,
        most: Option<u128>,
    ) -> Result<bool, Memory>
        requires number { id.0 < length store.now }
        requires room { HasRoom self.old (id.0 + 1) }
        requires plans { ArePlansOf store.now self.old }
        ensures learns { LearnsBelow store.now self.old self.new (id.0 + 1) }
        ensures known { IfOk result (λ whole. IsTrue whole → IsMarked self.new.known.items id.0) }
        ensures whole { IfOk result (λ whole. IsNone most → IsTrue whole) }
    {
        if self.known[id.0 as usize] {
            return Ok(is_within(self.costs[id.0 as usize], most));
        }
        store.same_answers();
        let edges = store.edges(id);
        for edge in edges {
            if self.known[edge.to.0 as usize] {
                continue;
            }
            let whole = self.learn_node(alloc, costing, store, edge.to, most)?;
            if !whole {
                return Ok(false);
            }
        }
        let cost = self.work_out(alloc, costing, store, id)?;
        Ok(is_within(cost, most))
    }

    /// Works out a node that isn't known, but whose children are.
    fn work_out(
        &mut self,
        alloc: Global,
        costing: &mut Costing,
        store: &Store,
        id: NodeId,
    ) -> Result<u128, Memory>
        requires number { id.0 < length store.now }
        requires room { HasRoom self.old (id.0 + 1) }
        requires plans { ArePlansOf store.now self.old }
        requires unknown { slice_get self.old.known.items id.0 ≢ Some true }
        requires children { All (λ e. IsMarked self.old.known.items e.to.0) (edges_of store.now id.0) }
        ensures learns { LearnsBelow store.now self.old self.new (id.0 + 1) }
        ensures known { OnOk result (IsMarked self.new.known.items id.0) }
    {
        store.same_answers();
        let costs = self.costs.as_slice();
        let plan = NodePlan::of(alloc, &mut self.labels, costing, store, costs, id)?;
        let NodePlan { cost, rows } = plan;
        self.keep(id, cost, rows);
        Ok(cost)
    }

    /// Keeps what a node costs, and its list.
    fn keep(&mut self, id: NodeId, cost: u128, rows: Vec<Row>)
        requires room { HasRoom self.old (id.0 + 1) }
        ensures known { self.new.known.items ≡ slice_set self.old.known.items id.0 true }
        ensures costs { self.new.costs.items ≡ slice_set self.old.costs.items id.0 cost }
        ensures lists { self.new.lists.items ≡ slice_set self.old.lists.items id.0 rows }
        ensures places { length self.new.labels.children.places.items ≡ length self.old.labels.children.places.items }
    {
        self.known[id.0 as usize] = true;
        self.costs[id.0 as usize] = cost;
        self.lists[id.0 as usize] = rows;
    }

    /// Makes room for the plans of so many nodes, the first of the store.
    fn make_room(&mut self, alloc: Global, count: usize) -> Result<(), Memory>
        ensures more { HasMoreRoom self.old self.new }
        ensures room { OnOk result (HasRoom self.new count) }
    {
        more_marks(&mut self.known, count)?;
        more_numbers(&mut self.costs, count)?;
        more_lists(alloc, &mut self.lists, count)?;
        self.labels.children.make_room(count)?;
        Ok(())
    }

    /// What the node under the number costs.
    pub fn cost(&self, id: NodeId) -> u128
        requires { id.0 < length self.now.costs.items }
        ensures { result ≡ slice_index self.now.costs.items id.0 }
    {
        self.costs[id.0 as usize]
    }

    /// The prefix list of the node under the number; a leaf has no rows.
    pub fn rows(&self, id: NodeId) -> &[Row]
        requires { id.0 < length self.now.lists.items }
        ensures { rows_at self.now.lists.items id.0 ≡ rows_of result.now }
    {
        self.lists[id.0 as usize].as_slice()
    }
}

/// Whether the cost is at most so much; each is where nothing is said.
fn is_within(cost: u128, most: Option<u128>) -> bool
    ensures { IsNone most → IsTrue result }
{
    match most {
        None => true,
        Some(most) => cost <= most,
    }
}
