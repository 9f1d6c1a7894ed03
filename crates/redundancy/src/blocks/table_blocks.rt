//! The blocks of a table of entries, by its runs.

use crate::blocks::entry_runs::first_run;
use crate::blocks::lists::{Item, ListedRun, Lists, decision_of};
use crate::blocks::{Blocks, Run, after};
use crate::sets::Sets;
use node_store::NodeId;
use razor_limits::Memory;
use smallvec::SmallVec;
use std::alloc::Global;
use ternary_words::Entry;

/// The list of some runs, and the runs.
#[derive(Drop)]
pub(crate) struct Gathered {
    pub list: Option<usize>,
    pub runs: SmallVec<Run, 4>,
}

impl<'a> Blocks<'a> {
    ghost use Rattle.std.specs.Prelude.{◌≡◌, ◌<◌, [], true, length, map, IfOk, IfSome, OnOk};
    ghost use Rattle.node_store.specs.Levels.{HasField, IsLevel};
    ghost use Rattle.redundancy_laws.specs.Built.{row_at};
    ghost use Rattle.redundancy_laws.specs.Sifted.{is_in};
    ghost use Rattle.node_store.specs.Diagram.{level_of};
    ghost use Rattle.redundancy.specs.Blocks.{IsBlocks, cover_at, rows_of, AreBuilt, IsBuilt};
    ghost use Rattle.redundancy.specs.Lists.{AreGathered, AreLists, IsBefore, ListsGrow, list_rows};

    /// The block of the entries over the fields of the level.
    ///
    /// A list of entries that was met before has its block.
    #[cycle(of)]
    pub fn of(
        &mut self,
        alloc: Global,
        sets: &mut Sets,
        lists: &mut Lists,
        entries: &[Entry],
        level: &'a [u8],
    ) -> Result<usize, Memory>
        requires blocks { IsBlocks sets.old self.old }
        requires lists { AreLists self.old lists.old }
        requires some { 0 < length entries.now }
        requires level { IsLevel level.now }
        ensures built { IfOk result (λ number. IsBuilt sets.old sets.new self.old self.new level.now (map (row_at level.now) entries.now) number) }
        ensures lists { OnOk result (ListsGrow self.old self.new lists.old lists.new) }
    {
        if level.is_empty() {
            self.of_lasts(alloc, sets, lists, entries)
        } else {
            self.of_fields(alloc, sets, lists, entries, level)
        }
    }

    /// The same with fields left.
    #[cycle(of)]
    fn of_fields(
        &mut self,
        alloc: Global,
        sets: &mut Sets,
        lists: &mut Lists,
        entries: &[Entry],
        level: &'a [u8],
    ) -> Result<usize, Memory>
        requires blocks { IsBlocks sets.old self.old }
        requires lists { AreLists self.old lists.old }
        requires some { 0 < length entries.now }
        requires level { HasField level.now }
        ensures built { IfOk result (λ number. IsBuilt sets.old sets.new self.old self.new level.now (map (row_at level.now) entries.now) number) }
        ensures lists { OnOk result (ListsGrow self.old self.new lists.old lists.new) }
    {
        let gathered = self.gather(alloc, sets, lists, entries, level)?;
        if let Some(known) = self.known(lists, gathered.list, level) {
            return Ok(known);
        }
        let number = self.of_runs(alloc, sets, level, gathered.runs.as_slice())?;
        lists.keep_list(gathered.list, number);
        Ok(number)
    }

    /// The runs of the entries, and their list.
    #[cycle(of)]
    fn gather(
        &mut self,
        alloc: Global,
        sets: &mut Sets,
        lists: &mut Lists,
        entries: &[Entry],
        level: &'a [u8],
    ) -> Result<Gathered, Memory>
        requires blocks { IsBlocks sets.old self.old }
        requires lists { AreLists self.old lists.old }
        requires level { HasField level.now }
        ensures { IfOk result (λ g. AreGathered sets.old sets.new self.old self.new lists.old lists.new level.now (map (row_at level.now) entries.now) g.list g.runs.items) }
    {
        let mut runs = SmallVec::new(alloc);
        let mut list = None;
        let mut rest = entries;
        'runs: while let Some(first) = first_run(rest, level) {
            let block = self.of(alloc, sets, lists, first.run, after(level))?;
            let piece = ListedRun {
                lo: first.span.lo,
                hi: first.span.hi,
                block,
            };
            let place = lists.with(list, Item::Behind(piece))?;
            list = Some(place);
            runs.push(Run {
                span: first.span,
                block,
            })?;
            rest = first.rest;
        }
        Ok(Gathered { list, runs })
    }

    /// The block of the level that is known of the list.
    fn known(&self, lists: &Lists, list: Option<usize>, level: &'a [u8]) -> Option<usize>
        requires lists { AreLists self.now lists.now }
        requires blocks { length self.now.covers.items ≡ length self.now.blocks.items }
        requires list { IsBefore (length lists.now.links.keys) list }
        ensures within { IfSome result (λ number. number < length self.now.blocks.items) }
        ensures level { IfSome result (λ number. (cover_at self.now.covers.items number).level.now ≡ level.now) }
        ensures rows { IfSome result (λ number. rows_of self.now.blocks.items number ≡ list_rows (rows_of self.now.blocks.items) lists.now.links.keys list) }
    {
        let number = lists.known_of(list)?;
        if self.cover(number).level == level {
            Some(number)
        } else {
            None
        }
    }

    /// The same with no field left.
    fn of_lasts(
        &mut self,
        alloc: Global,
        sets: &mut Sets,
        lists: &mut Lists,
        entries: &[Entry],
    ) -> Result<usize, Memory>
        requires blocks { IsBlocks sets.old self.old }
        requires lists { AreLists self.old lists.old }
        requires some { 0 < length entries.now }
        ensures built { IfOk result (λ number. IsBuilt sets.old sets.new self.old self.new [] (map (row_at []) entries.now) number) }
        ensures lists { OnOk result (ListsGrow self.old self.new lists.old lists.new) }
    {
        let list = lists.lasts(entries)?;
        if let Some(known) = self.known(lists, list, &[]) {
            return Ok(known);
        }
        let number = self.lasts(alloc, sets, entries)?;
        lists.keep_list(list, number);
        Ok(number)
    }

    /// The block of the entries with no field left.
    fn lasts(&mut self, alloc: Global, sets: &mut Sets, entries: &[Entry]) -> Result<usize, Memory>
        requires blocks { IsBlocks sets.old self.old }
        requires some { 0 < length entries.now }
        ensures { IfOk result (λ number. IsBuilt sets.old sets.new self.old self.new [] (map (row_at []) entries.now) number) }
    {
        let full = sets.full()?;
        let numbers = self.each_last(alloc, sets, full, entries)?;
        self.sequence(sets, &[], numbers.as_slice())
    }

    /// The block of each entry with no field left.
    fn each_last(
        &mut self,
        alloc: Global,
        sets: &Sets,
        full: NodeId,
        entries: &[Entry],
    ) -> Result<Vec<usize>, Memory>
        requires blocks { IsBlocks sets.now self.old }
        requires level { level_of sets.now full.0 ≡ [] }
        requires full { is_in sets.now full.0 [] ≡ true }
        ensures built { IfOk result (λ numbers. AreBuilt sets.now sets.now self.old self.new [] (map (row_at []) entries.now) numbers.items) }
        ensures count { IfOk result (λ numbers. length numbers.items ≡ length entries.now) }
    {
        let mut numbers = Vec::new(alloc);
        for entry in entries {
            let number = self.last(sets, full, decision_of(entry))?;
            numbers.push(number)?;
        }
        Ok(numbers)
    }
}
