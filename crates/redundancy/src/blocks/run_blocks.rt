//! The blocks of lists of runs, cut into layers.
ghost use Rattle.std.specs.Prelude.{◌≡◌, ◌<◌, ◌≤◌, All, length, map, take, IfOk};
ghost use Rattle.redundancy.specs.Blocks.{RiseApart, run_placed};

use crate::blocks::{Block, Blocks, Cover, Run};
use crate::sets::Sets;
use field_sets::Placed;
use node_store::NodeId;
use razor_limits::Memory;
use std::alloc::Global;

impl<'a> Blocks<'a> {
    ghost use Rattle.std.specs.Prelude.{◌≡◌, ◌<◌, ◌++◌, ◌∷◌, [], true, length, map, IfOk};
    ghost use Rattle.std.specs.List.{flat_map};
    ghost use Rattle.node_store.specs.Levels.{HasField, IsLevel};
    ghost use Rattle.node_store.specs.Diagram.{level_of};
    ghost use Rattle.node_store.specs.Store.{Grows};
    ghost use Rattle.field_sets.specs.Constant.{AnswersAlways};
    ghost use Rattle.redundancy_laws.specs.Rows.{last_row};
    ghost use Rattle.redundancy_laws.specs.Sifted.{IsCover, is_in};
    ghost use Rattle.redundancy_laws.specs.Layers.{rows_of_runs};
    ghost use Rattle.redundancy.specs.Blocks.{IsBlocks, RiseApart, rows_of, run_by, IsAdded, IsBuilt, AreBuilt, StandsAt, StandAt, FitRuns};

    /// The block of one entry with no field left, which matches the full set.
    pub fn last(&mut self, sets: &Sets, full: NodeId, decision: u32) -> Result<usize, Memory>
        requires blocks { IsBlocks sets.now self.old }
        requires level { level_of sets.now full.0 ≡ [] }
        requires full { is_in sets.now full.0 [] ≡ true }
        ensures { IfOk result (λ number. IsBuilt sets.now sets.now self.old self.new [] (last_row decision ∷ []) number) }
    {
        let _sets = sets;
        self.add(Block::Last(decision), &[], full)
    }

    /// The block of the runs, in layers: a layer ends where the next run doesn't begin above the one before it.
    pub fn of_runs(
        &mut self,
        alloc: Global,
        sets: &mut Sets,
        level: &'a [u8],
        runs: &[Run],
    ) -> Result<usize, Memory>
        requires blocks { IsBlocks sets.old self.old }
        requires some { 0 < length runs.now }
        requires level { HasField level.now }
        requires runs { FitRuns self.old level.now runs.now }
        ensures { IfOk result (λ number. IsBuilt sets.old sets.new self.old self.new level.now (rows_of_runs (map (run_by (rows_of self.old.blocks.items)) runs.now)) number) }
    {
        let numbers = self.layers(alloc, sets, level, runs)?;
        self.sequence(sets, level, &numbers)
    }

    /// The block of some blocks of one level in sequence, halved again and again so that no recursion goes deep.
    pub fn sequence(
        &mut self,
        sets: &mut Sets,
        level: &'a [u8],
        numbers: &[usize],
    ) -> Result<usize, Memory>
        requires blocks { IsBlocks sets.old self.old }
        requires some { 0 < length numbers.now }
        requires level { IsLevel level.now }
        requires numbers { StandAt self.old level.now numbers.now }
        ensures { IfOk result (λ number. IsBuilt sets.old sets.new self.old self.new level.now (flat_map (rows_of self.old.blocks.items) numbers.now) number) }
    {
        if numbers.len() == 1 {
            return Ok(numbers[0]);
        }
        let (first, second) = numbers.split_at(numbers.len() / 2);
        let first = self.sequence(sets, level, first)?;
        let second = self.sequence(sets, level, second)?;
        self.two(sets, level, first, second)
    }

    /// The blocks of the layers in their order.
    fn layers(
        &mut self,
        alloc: Global,
        sets: &mut Sets,
        level: &'a [u8],
        runs: &[Run],
    ) -> Result<Vec<usize>, Memory>
        requires blocks { IsBlocks sets.old self.old }
        requires some { 0 < length runs.now }
        requires level { HasField level.now }
        requires runs { FitRuns self.old level.now runs.now }
        ensures some { IfOk result (λ numbers. 0 < length numbers.items) }
        ensures built { IfOk result (λ numbers. AreBuilt sets.old sets.new self.old self.new level.now (rows_of_runs (map (run_by (rows_of self.old.blocks.items)) runs.now)) numbers.items) }
    {
        let none = sets.none(level)?;
        let mut numbers = Vec::new(alloc);
        let mut rest = runs;
        while !rest.is_empty() {
            let (layer, others) = rest.split_at(layer_len(rest));
            let number = self.layer(alloc, sets, level, none, layer)?;
            numbers.push(number)?;
            rest = others;
        }
        Ok(numbers)
    }

    /// The block of runs that rise and are apart, by the empty set of the level.
    fn layer(
        &mut self,
        alloc: Global,
        sets: &mut Sets,
        level: &'a [u8],
        none: NodeId,
        runs: &[Run],
    ) -> Result<usize, Memory>
        requires blocks { IsBlocks sets.old self.old }
        requires level { HasField level.now }
        requires none { AnswersAlways sets.old level.now 0 none.0 }
        requires runs { FitRuns self.old level.now runs.now }
        requires apart { RiseApart runs.now }
        ensures { IfOk result (λ number. IsBuilt sets.old sets.new self.old self.new level.now (rows_of_runs (map (run_by (rows_of self.old.blocks.items)) runs.now)) number) }
    {
        let set = self.layer_set(alloc, sets, level, none, runs)?;
        let mut own = Vec::new(alloc);
        own.extend_from_slice(runs)?;
        self.add(Block::Layer(own), level, set)
    }

    /// The set of the values that some entry of such runs matches.
    fn layer_set(
        &self,
        alloc: Global,
        sets: &mut Sets,
        level: &'a [u8],
        none: NodeId,
        runs: &[Run],
    ) -> Result<NodeId, Memory>
        requires blocks { IsBlocks sets.old self.now }
        requires level { HasField level.now }
        requires none { AnswersAlways sets.old level.now 0 none.0 }
        requires runs { FitRuns self.now level.now runs.now }
        requires apart { RiseApart runs.now }
        ensures level { IfOk result (λ set. level_of sets.new set.0 ≡ level.now) }
        ensures cover { IfOk result (λ set. IsCover sets.new level.now set.0 (rows_of_runs (map (run_by (rows_of self.now.blocks.items)) runs.now))) }
        ensures grows { IfOk result (λ set. Grows sets.old sets.new) }
    {
        let placed = placed(alloc, &self.covers, runs)?;
        let set = sets.laid(level, none, &placed)?;
        Ok(set)
    }

    /// The block of two.
    fn two(
        &mut self,
        sets: &mut Sets,
        level: &'a [u8],
        first: usize,
        second: usize,
    ) -> Result<usize, Memory>
        requires blocks { IsBlocks sets.old self.old }
        requires level { IsLevel level.now }
        requires first { StandsAt self.old level.now first }
        requires second { StandsAt self.old level.now second }
        ensures { IfOk result (λ number. IsBuilt sets.old sets.new self.old self.new level.now (rows_of self.old.blocks.items first ++ rows_of self.old.blocks.items second) number) }
    {
        let set = sets.union(level, self.cover(first).set, self.cover(second).set)?;
        self.add(Block::Two(first, second), level, set)
    }

    /// Adds the block with its cover.
    fn add(&mut self, block: Block, level: &'a [u8], set: NodeId) -> Result<usize, Memory>
        requires { length self.old.covers.items ≡ length self.old.blocks.items }
        ensures { IfOk result (λ number. IsAdded self.old self.new block (record { level = level.entry; set = set }) number) }
    {
        let number = self.blocks.len();
        self.covers.push(Cover { level, set })?;
        self.blocks.push(block)?;
        Ok(number)
    }
}

/// How many runs the first layer has: it ends where the next run doesn't begin above the one before it.
pub(crate) fn layer_len(runs: &[Run]) -> usize
    requires { 0 < length runs.now }
    ensures some { 0 < result }
    ensures within { result ≤ length runs.now }
    ensures apart { RiseApart (take result runs.now) }
{
    for k in 1..runs.len() {
        if runs[k].span.lo <= runs[k - 1].span.hi {
            return k;
        }
    }
    runs.len()
}

/// The span of each run, and the set of its block.
pub(crate) fn placed(
    alloc: Global,
    covers: &[Cover<'_>],
    runs: &[Run],
) -> Result<Vec<Placed>, Memory>
    requires { All (λ r. r.block < length covers.now) runs.now }
    ensures { IfOk result (λ placed. placed.items ≡ map (run_placed covers.now) runs.now) }
{
    let mut placed = Vec::new(alloc);
    for run in runs {
        placed.push(Placed {
            span: run.span,
            to: covers[run.block].set,
        })?;
    }
    Ok(placed)
}
