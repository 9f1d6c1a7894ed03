//! The ways in which the table of a commit takes the place of the settled one.
ghost use Rattle.std.specs.Prelude.{◌≡◌, None, IfOk, IfErr, OnErr};
ghost use Rattle.edit_session.specs.Ways.{HasBegun, InPlace, IsNotBegun, Way, Whole};

use crate::refusal::CommitRefusal;
use bank_update::{Block, StandingTable, Swapper, Updater};
use razor_base::Memory;
use slot_patch::{Patcher, SlotTable, begin_patch};
use std::alloc::Global;
use tcam_sim::Device;
use ternary_words::Table;

/// A table that another one can replace.
pub trait Replaced: StandingTable {
    /// In which way.
    ghost way: { Way };

    /// Begins an update to the table, and answers how many writes it has. After a refusal all is as it was.
    fn begin<V: Device>(
        alloc: Global,
        updater: &mut Updater<V, Self>,
        table: Table,
    ) -> Result<u64, CommitRefusal>
        requires { updater.old.state.pending ≡ None }
        ensures begun { IfOk result (λ total. HasBegun way updater.old.state updater.new.state table total) }
        ensures refused { IfErr result (IsNotBegun way updater.old.state table) }
        ensures unchanged { OnErr result (updater.new ≡ updater.old) }
        ensures device { updater.new.device ≡ updater.old.device };

    /// The slots that hold entries, from the first to the last, where it matters which they are.
    fn slots_taken(&self, alloc: Global) -> Result<Vec<u32>, Memory>;
}

impl Replaced for Block {
    ghost way = { Whole };

    fn begin<V: Device>(
        _alloc: Global,
        swapper: &mut Swapper<V>,
        table: Table,
    ) -> Result<u64, CommitRefusal> {
        match swapper.begin(table) {
            Ok(total) => Ok(total),
            Err((_table, refusal)) => Err(CommitRefusal::from(refusal)),
        }
    }

    fn slots_taken(&self, alloc: Global) -> Result<Vec<u32>, Memory> {
        Ok(Vec::new(alloc))
    }
}

impl Replaced for SlotTable {
    ghost way = { InPlace };

    fn begin<V: Device>(
        alloc: Global,
        patcher: &mut Patcher<V>,
        table: Table,
    ) -> Result<u64, CommitRefusal> {
        match begin_patch(alloc, patcher, &table) {
            Ok(total) => Ok(total),
            Err(refusal) => Err(CommitRefusal::from(refusal)),
        }
    }

    fn slots_taken(&self, alloc: Global) -> Result<Vec<u32>, Memory> {
        self.taken(alloc)
    }
}
