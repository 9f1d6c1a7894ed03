//! The blocks of a diagram's nodes, by the prefix lists of its plans, each worked out once.

use crate::blocks::{Blocks, Run, after};
use crate::sets::Sets;
use field_boxes::width;
use node_store::{NodeId, Store};
use razor_limits::Memory;
use std::alloc::Global;
use table_compose::Plans;

impl<'a> Blocks<'a> {
    ghost use Rattle.std.specs.Prelude.{◌≡◌, ◌∷◌, [], IfOk, OnOk};
    ghost use Rattle.node_store.specs.Levels.{HasField, IsLevel};
    ghost use Rattle.node_store.specs.Diagram.{answer, level_of};
    ghost use Rattle.table_compose.specs.Rows.{rows_at};
    ghost use Rattle.table_compose.specs.Composed.{HaveLists};
    ghost use Rattle.redundancy_laws.specs.Rows.{last_row};
    ghost use Rattle.redundancy.specs.Blocks.{IsBlocks, IsBuilt};
    ghost use Rattle.redundancy.specs.NodeBlocks.{AreKnown, HasPlans, node_rows};

    /// The block of the entries that a node of the level composes.
    ///
    /// Each node is worked out once.
    #[cycle(of_node)]
    pub fn of_node(
        &mut self,
        alloc: Global,
        sets: &mut Sets,
        known: &mut Known,
        store: &Store,
        plans: &Plans,
        id: NodeId,
        level: &'a [u8],
    ) -> Result<usize, Memory>
        requires blocks { IsBlocks sets.old self.old }
        requires known { AreKnown store.now plans.now self.old known.old }
        requires within { IsLevel level.now }
        requires at { level_of store.now id.0 ≡ level.now }
        requires lists { HaveLists store.now (rows_at plans.now.lists.items) level.now id.0 }
        requires planned { HasPlans plans.now level.now id.0 }
        ensures built { IfOk result (λ number. IsBuilt sets.old sets.new self.old self.new level.now (node_rows store.now (rows_at plans.now.lists.items) level.now id.0) number) }
        ensures known { OnOk result (AreKnown store.now plans.now self.new known.new) }
    {
        if let Some(number) = known.get(id) {
            return Ok(number);
        }
        let number = self.made(alloc, sets, known, store, plans, id, level)?;
        known.keep(id, number);
        Ok(number)
    }

    /// The same of a node of which nothing is known.
    #[cycle(of_node)]
    fn made(
        &mut self,
        alloc: Global,
        sets: &mut Sets,
        known: &mut Known,
        store: &Store,
        plans: &Plans,
        id: NodeId,
        level: &'a [u8],
    ) -> Result<usize, Memory>
        requires blocks { IsBlocks sets.old self.old }
        requires known { AreKnown store.now plans.now self.old known.old }
        requires within { IsLevel level.now }
        requires at { level_of store.now id.0 ≡ level.now }
        requires lists { HaveLists store.now (rows_at plans.now.lists.items) level.now id.0 }
        requires planned { HasPlans plans.now level.now id.0 }
        ensures built { IfOk result (λ number. IsBuilt sets.old sets.new self.old self.new level.now (node_rows store.now (rows_at plans.now.lists.items) level.now id.0) number) }
        ensures known { OnOk result (AreKnown store.now plans.now self.new known.new) }
    {
        if level.is_empty() {
            self.of_leaf(sets, store, id)
        } else {
            self.of_rows(alloc, sets, known, store, plans, id, level)
        }
    }

    /// The same of an inner node: a run for each row of its prefix list.
    #[cycle(of_node)]
    fn of_rows(
        &mut self,
        alloc: Global,
        sets: &mut Sets,
        known: &mut Known,
        store: &Store,
        plans: &Plans,
        id: NodeId,
        level: &'a [u8],
    ) -> Result<usize, Memory>
        requires blocks { IsBlocks sets.old self.old }
        requires known { AreKnown store.now plans.now self.old known.old }
        requires within { HasField level.now }
        requires at { level_of store.now id.0 ≡ level.now }
        requires lists { HaveLists store.now (rows_at plans.now.lists.items) level.now id.0 }
        requires planned { HasPlans plans.now level.now id.0 }
        ensures built { IfOk result (λ number. IsBuilt sets.old sets.new self.old self.new level.now (node_rows store.now (rows_at plans.now.lists.items) level.now id.0) number) }
        ensures known { OnOk result (AreKnown store.now plans.now self.new known.new) }
    {
        store.same_answers();
        let bits = width(usize::from(level[0]));
        let below = after(level);
        let rows = plans.rows(id);
        let mut runs = Vec::with_capacity(alloc, rows.len())?;
        for row in rows {
            let block = self.of_node(alloc, sets, known, store, plans, row.to, below)?;
            let span = row.prefix.span(bits);
            runs.push(Run { span, block })?;
        }
        self.of_runs(alloc, sets, level, runs.as_slice())
    }

    /// The same of a leaf.
    fn of_leaf(&mut self, sets: &mut Sets, store: &Store, id: NodeId) -> Result<usize, Memory>
        requires blocks { IsBlocks sets.old self.old }
        requires leaf { level_of store.now id.0 ≡ [] }
        ensures { IfOk result (λ number. IsBuilt sets.old sets.new self.old self.new [] (last_row (answer store.now id.0 []) ∷ []) number) }
    {
        store.same_answers();
        let full = sets.full()?;
        self.last(sets, full, store.decision(id).unwrap_or(0))
    }
}

/// For each node of a diagram the number of its block, if it is known.
#[derive(Drop)]
pub struct Known {
    pub numbers: Vec<Option<usize>>,
}

impl Known {
    ghost use Rattle.std.specs.Prelude.{List, IfSome, OnOk};
    ghost use Rattle.node_store.specs.Diagram.{Node};
    ghost use Rattle.table_compose.specs.declared.diagram_plans.Plans.{Plans};
    ghost use Rattle.redundancy.specs.declared.blocks.Blocks.{Blocks};
    ghost use Rattle.redundancy.specs.NodeBlocks.{AreKnown, IsBlockOf};

    /// Nothing is known.
    pub fn new(alloc: Global) -> Known
        ensures { (nodes : List Node) (plans : Plans) (blocks : Blocks) → AreKnown nodes plans blocks result }
    {
        let numbers = Vec::new(alloc);
        Known { numbers }
    }

    /// Makes room for so many nodes, which are all of the store.
    pub fn make_room(&mut self, count: usize) -> Result<(), Memory>
        ensures { (nodes : List Node) (plans : Plans) (blocks : Blocks) → AreKnown nodes plans blocks self.old → OnOk result (AreKnown nodes plans blocks self.new) }
    {
        self.numbers.resize(count, None)?;
        Ok(())
    }

    /// The block of the node, if it is known.
    pub fn get(&self, id: NodeId) -> Option<usize>
        ensures { (nodes : List Node) (plans : Plans) (blocks : Blocks) → AreKnown nodes plans blocks self.now →
            IfSome result (IsBlockOf nodes plans blocks id.0) }
    {
        let known = self.numbers.get(id.0 as usize)?;
        *known
    }

    /// Keeps the block of the node, where there is room for it.
    pub fn keep(&mut self, id: NodeId, number: usize)
        ensures { (nodes : List Node) (plans : Plans) (blocks : Blocks) → AreKnown nodes plans blocks self.old →
            IsBlockOf nodes plans blocks id.0 number → AreKnown nodes plans blocks self.new }
    {
        if (id.0 as usize) < self.numbers.len() {
            self.numbers[id.0 as usize] = Some(number);
        }
    }
}
