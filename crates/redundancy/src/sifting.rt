//! Which entries of a block are kept for some contexts, worked out once.

pub(crate) mod last_entry;
pub(crate) mod layer;

use crate::blocks::{Block, Blocks, Run};
use crate::contexts::{Below, Contexts, Room, before_answers, behind_cover, listed_below};
use crate::sets::Sets;
use crate::sifting::last_entry::last;
use crate::sifting::layer::{Draft, finished, take_in};
use razor_limits::Memory;
use redundancy_laws::{Context, Sifted};
use std::alloc::Global;
use std::collections::HashMap;

impl<'a> Blocks<'a> {
    ghost use Rattle.std.specs.Prelude.{◌≡◌, ◌<◌, ◌≤◌, ◌++◌, ℕ, suc, List, length, map, All, IfOk, OnOk};
    ghost use Rattle.node_store.specs.Levels.{HasField, next as next_level, top_of};
    ghost use Rattle.field_boxes.specs.Spans.{interval_of};
    ghost use Rattle.node_store.specs.Diagram.{Node};
    ghost use Rattle.node_store.specs.Store.{Grows};
    ghost use Rattle.redundancy_laws.specs.Rows.{Row, in_front};
    ghost use Rattle.redundancy_laws.specs.Layers.{AreApartFrom, rows_of_runs};
    ghost use Rattle.redundancy_laws.specs.Sifted.{AreContexts, IsSifted};
    ghost use Rattle.redundancy.specs.Blocks.{IsBlocks, FitsRun, RiseApart, rows_of, run_by, cover_at};
    ghost use Rattle.redundancy.specs.Drafts.{IsDraft};
    ghost use Rattle.redundancy.specs.Remembered.{IsMemo};

    /// What is kept of the block for the contexts.
    #[cycle(sift)]
    pub fn sift(
        &self,
        alloc: Global,
        sets: &mut Sets,
        memo: &mut Memo,
        number: usize,
        contexts: &[Context],
    ) -> Result<Sifted, Memory>
        requires blocks { IsBlocks sets.old self.now }
        requires memo { IsMemo sets.old self.now memo.old }
        requires number { number < length self.now.blocks.items }
        requires contexts { AreContexts sets.old (cover_at self.now.covers.items number).level.now contexts.now }
        ensures sifted { IfOk result (λ s. IsSifted sets.new (cover_at self.now.covers.items number).level.now (rows_of self.now.blocks.items number) contexts.now s) }
        ensures memo { OnOk result (IsMemo sets.new self.now memo.new) }
        ensures grows { Grows sets.old sets.new }
    {
        match self.block(number) {
            Block::Last(decision) => {
                let sifted = last(alloc, sets, *decision, contexts)?;
                Ok(sifted)
            }
            Block::Layer(runs) => {
                let level = self.cover(number).level;
                let sifted = self.sift_layer(
                    alloc,
                    sets,
                    memo,
                    level,
                    number,
                    runs.as_slice(),
                    contexts,
                )?;
                Ok(sifted)
            }
            Block::Two(first, second) => {
                let sifted = self.sift_two(alloc, sets, memo, *first, *second, contexts)?;
                Ok(sifted)
            }
        }
    }

    /// What is kept of two blocks, one after the other.
    #[cycle(sift)]
    fn sift_two(
        &self,
        alloc: Global,
        sets: &mut Sets,
        memo: &mut Memo,
        first: usize,
        second: usize,
        contexts: &[Context],
    ) -> Result<Sifted, Memory>
        requires blocks { IsBlocks sets.old self.now }
        requires memo { IsMemo sets.old self.now memo.old }
        requires first { first < length self.now.blocks.items }
        requires second { second < length self.now.blocks.items }
        requires level { (cover_at self.now.covers.items second).level.now ≡ (cover_at self.now.covers.items first).level.now }
        requires contexts { AreContexts sets.old (cover_at self.now.covers.items first).level.now contexts.now }
        ensures sifted { IfOk result (λ s. IsSifted sets.new (cover_at self.now.covers.items first).level.now (rows_of self.now.blocks.items first ++ rows_of self.now.blocks.items second) contexts.now s) }
        ensures memo { OnOk result (IsMemo sets.new self.now memo.new) }
        ensures grows { Grows sets.old sets.new }
    {
        let behind = behind_cover(alloc, sets, self.cover(first), contexts)?;
        let later = self.sift(alloc, sets, memo, second, behind.as_slice())?;
        let before = before_answers(alloc, contexts, later.after.as_slice())?;
        let earlier = self.sift(alloc, sets, memo, first, before.as_slice())?;
        let Sifted { mut kept, after } = earlier;
        kept.extend_from_slice(later.kept.as_slice())?;
        Ok(Sifted { kept, after })
    }

    /// What is kept of the runs of a layer that lead to blocks before the number.
    #[cycle(sift)]
    fn sift_layer(
        &self,
        alloc: Global,
        sets: &mut Sets,
        memo: &mut Memo,
        level: &[u8],
        number: usize,
        runs: &[Run],
        contexts: &[Context],
    ) -> Result<Sifted, Memory>
        requires blocks { IsBlocks sets.old self.now }
        requires memo { IsMemo sets.old self.now memo.old }
        requires level { HasField level.now }
        requires number { number < length self.now.blocks.items }
        requires fit { All (FitsRun self.now.covers.items number level.now) runs.now }
        requires apart { RiseApart runs.now }
        requires contexts { AreContexts sets.old level.now contexts.now }
        ensures sifted { IfOk result (λ s. IsSifted sets.new level.now (rows_of_runs (map (run_by (rows_of self.now.blocks.items)) runs.now)) contexts.now s) }
        ensures memo { OnOk result (IsMemo sets.new self.now memo.new) }
        ensures grows { Grows sets.old sets.new }
    {
        let mut draft = Draft {
            kept: Vec::new(alloc),
            changes: Vec::new(alloc),
        };
        sets.is_store();
        for run in runs {
            self.sift_run(alloc, sets, memo, level, *run, contexts, &mut draft)?;
        }
        let Draft { kept, changes } = draft;
        let after = finished(alloc, sets, level, contexts, changes.as_slice())?;
        Ok(Sifted { kept, after })
    }

    /// Takes what is kept of a run into the draft of those before it: its block is gone through once for the same contexts.
    #[cycle(sift)]
    fn sift_run(
        &self,
        alloc: Global,
        sets: &mut Sets,
        memo: &mut Memo,
        level: &[u8],
        run: Run,
        contexts: &[Context],
        draft: &mut Draft,
    ) -> Result<(), Memory>
        requires blocks { IsBlocks sets.old self.now }
        requires memo { IsMemo sets.old self.now memo.old }
        requires level { HasField level.now }
        requires block { run.block < length self.now.blocks.items }
        requires next { (cover_at self.now.covers.items run.block).level.now ≡ next_level level.now }
        requires inside { run.span.hi ≤ top_of level.now }
        requires contexts { AreContexts sets.old level.now contexts.now }
        ensures draft { (base : List Node) (rows : List Row) (least : ℕ) → least ≤ run.span.lo → AreApartFrom (interval_of run.span) rows → IsDraft base sets.old level.now rows contexts.now least draft.old →
            OnOk result (IsDraft base sets.new level.now (rows ++ map (in_front (interval_of run.span)) (rows_of self.now.blocks.items run.block)) contexts.now (suc run.span.hi) draft.new) }
        ensures memo { OnOk result (IsMemo sets.new self.now memo.new) }
        ensures grows { Grows sets.old sets.new }
    {
        sets.is_store();
        let below = listed_below(alloc, sets, &mut memo.room, level, run.span, contexts)?;
        let Below { pairs, stretches } = below;
        let stretches = stretches.as_slice();
        let asked = BlockContexts {
            number: run.block,
            contexts: pairs,
        };
        if let Some(known) = memo.get(&asked) {
            return take_in(alloc, draft, stretches, known);
        }
        let inner = self.sift(alloc, sets, memo, run.block, asked.contexts.as_slice())?;
        take_in(alloc, draft, stretches, &inner)?;
        memo.keep(asked, inner)
    }
}

/// A block, and the contexts for which it was gone through.
#[derive(Debug, PartialEq, Eq, Hash, Drop)]
pub(crate) struct BlockContexts {
    pub number: usize,
    pub contexts: Contexts,
}

/// What was kept of blocks for some contexts, and room that each run uses again.
#[derive(Drop)]
pub struct Memo {
    done: HashMap<BlockContexts, Sifted>,
    pub(crate) room: Room,
}

impl Memo {
    ghost use Rattle.std.specs.Prelude.{List, IfSome, OnOk};
    ghost use Rattle.node_store.specs.Diagram.{Node};
    ghost use Rattle.redundancy.specs.declared.blocks.Blocks.{Blocks};
    ghost use Rattle.redundancy.specs.Remembered.{IsMemo, IsAnswered};

    /// Nothing was worked out.
    pub fn new(alloc: Global) -> Memo
        ensures { (nodes : List Node) (blocks : Blocks) → IsMemo nodes blocks result }
    {
        Memo {
            done: HashMap::new(alloc),
            room: Room::new(alloc),
        }
    }

    /// What came of the block for these contexts, if it was gone through.
    pub(crate) fn get(&self, asked: &BlockContexts) -> Option<&Sifted>
        ensures { (nodes : List Node) (blocks : Blocks) → IsMemo nodes blocks self.now →
            IfSome result (λ s. IsAnswered nodes blocks asked.now.number asked.now.contexts.items s.now) }
    {
        self.done.get(asked)
    }

    /// Keeps what came of the block for these contexts.
    pub(crate) fn keep(&mut self, asked: BlockContexts, sifted: Sifted) -> Result<(), Memory>
        ensures { (nodes : List Node) (blocks : Blocks) → IsMemo nodes blocks self.old →
            IsAnswered nodes blocks asked.number asked.contexts.items sifted → OnOk result (IsMemo nodes blocks self.new) }
    {
        self.done.insert(asked, sifted)?;
        Ok(())
    }
}
