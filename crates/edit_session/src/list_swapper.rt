//! A device whose tables are replaced, with the list that each of them was compiled of.
ghost use Rattle.std.specs.Prelude.{◌≡◌, length};

use crate::listing::Listing;
use crate::refusal::CommitRefusal;
use crate::table_lists::TableLists;
use crate::way::Replaced;
use bank_update::{Idle, Stage, StepRefusal, Updater};
use field_boxes::Header;
use razor_base::Memory;
use rule_shortening::Taken;
use std::alloc::Global;
use std::marker::Model;
use tcam_sim::Device;
use ternary_words::Table;

/// A memory whose tables are replaced, and the lists of its tables: the tables answer as their lists decide.
#[derive(Drop)]
pub(crate) struct ListSwapper<V: Device, T: Replaced> {
    lists: TableLists,
    updater: Updater<V, T>,
}

impl<V: Device, T: Replaced> Model for ListSwapper<V, T> {
    ghost use Rattle.edit_session.specs.Editing.{ListedSwap};
    ghost use Rattle.edit_session.specs.Sound.{AreTablesOf};

    ghost Value = { ListedSwap V };

    ghost view = { λ s. record { device = s.updater.device; state = s.updater.state; copies = s.lists } };

    ghost invariant = { λ s. AreTablesOf s.lists s.updater.state };
}

impl<V: Device, T: Replaced> ListSwapper<V, T> {
    ghost use Rattle.std.specs.Prelude.{◌≡◌, ◌≢◌, ◌≤◌, ◌↔◌, ℕ, List, None, Some, Ok, Err, length, replicate, ok_or, IfOk, IfErr, OnOk, OnErr};
    ghost use Rattle.razor_limits.specs.Counts.{counted, Rose};
    ghost use Rattle.field_boxes.specs.Headline.Names.{text_of};
    ghost use Rattle.bank_update.specs.Machine.{abort_answer, aborted, held, looked, stage, step_answer, stepped};
    ghost use Rattle.bank_update.specs.Whole.{unsettled};
    ghost use Rattle.bank_update.specs.Sound.{IsSound};
    ghost use Rattle.bank_update.specs.Swapping.{KeepsNew};
    ghost use Rattle.bank_update.specs.declared.refusal.StepRefusal.TheVariants as step_refusals;
    ghost use Rattle.edit_session.specs.Machine.{aborted_copies, copies_begun, decided, no_copies, stepped_copies};
    ghost use Rattle.edit_session.specs.Sound.{AreTablesOf, IsTableBy};
    ghost use Rattle.edit_session.specs.Ways.{HasBegun, IsNotBegun};

    /// The settled table is the empty one, of the empty list.
    pub(crate) fn new(alloc: Global, updater: Updater<V, T>) -> Self
        requires { updater.state ≡ unsettled (length (V.held updater.device)) }
        ensures device { result.device ≡ updater.device }
        ensures state { result.state ≡ updater.state }
        ensures copies { result.copies ≡ no_copies }
    {
        ListSwapper {
            lists: TableLists::new(alloc),
            updater,
        }
    }

    /// The device.
    pub(crate) fn device(&self) -> &V
        ensures device { result.now ≡ self.now.device }
        ensures held { V.held result.now ≡ held self.now.state }
    {
        self.updater.device()
    }

    /// The stage of the swap that is pending.
    pub(crate) fn stage(&self) -> Option<Stage>
        ensures stage { result ≡ stage self.now.state }
        ensures sound { IsSound self.now.state }
        ensures tables { AreTablesOf self.now.copies self.now.state }
    {
        let _lists = &self.lists;
        self.updater.stage()
    }

    /// The slots that the settled table takes, where it matters which they are.
    pub(crate) fn taken(&self, alloc: Global) -> Result<Taken, Memory> {
        let slots = self.updater.settled().slots_taken(alloc)?;
        let count = self.device().slots();
        Ok(Taken { slots, count })
    }

    /// Begins an update to a table of the list, and answers how many writes it has. After a refusal all is as it was.
    pub(crate) fn begin(
        &mut self,
        alloc: Global,
        table: Table,
        list: Listing,
    ) -> Result<u64, CommitRefusal>
        requires idle { self.old.state.pending ≡ None }
        requires table { IsTableBy list.rules table }
        ensures begun { IfOk result (λ total. HasBegun T.way self.old.state self.new.state table total) }
        ensures copies { IfOk result (λ total. self.new.copies ≡ copies_begun list total self.old.copies) }
        ensures refused { IfErr result (IsNotBegun T.way self.old.state table) }
        ensures unchanged { OnErr result (self.new ≡ self.old) }
        ensures device { self.new.device ≡ self.old.device }
    {
        let total = T::begin(alloc, &mut self.updater, table)?;
        self.lists.begin(list, total);
        Ok(total)
    }

    /// Does the next write, or undoes the last one where the swap goes back, and answers the stage.
    pub(crate) fn step(&mut self) -> Result<Stage, StepRefusal>
        ensures ok { IfOk result (λ stage. step_answer self.old.state ≡ Some stage) }
        ensures state { OnOk result (self.new.state ≡ stepped self.old.state) }
        ensures copies { OnOk result (self.new.copies ≡ stepped_copies self.old.state self.old.copies) }
        ensures idle { result ≡ Err step_refusals.Idle ↔ self.old.state.pending ≡ None }
        ensures state_stays { OnErr result (self.new.state ≡ self.old.state) }
        ensures copies_stay { OnErr result (self.new.copies ≡ self.old.copies) }
        ensures one_try { self.old.state.pending ≢ None → V.tries self.new.device ≡ counted (V.tries self.old.device) }
        ensures no_try { self.old.state.pending ≡ None → self.new ≡ self.old }
        ensures keeps { (values : List ℕ) → OnOk result (KeepsNew self.old.state self.new.state values) }
        ensures fault { result ≡ Err step_refusals.DeviceFault → Rose (V.faults self.old.device) (V.faults self.new.device) }
        ensures counts { V.faults self.old.device ≤ V.faults self.new.device }
    {
        let stage = self.updater.step()?;
        self.lists.reach(stage);
        Ok(stage)
    }

    /// Lets the swap go back from now on, and answers its stage.
    pub(crate) fn abort(&mut self) -> Result<Stage, Idle>
        ensures answer { result ≡ ok_or (abort_answer self.old.state) (record {}) }
        ensures state { self.new.state ≡ aborted self.old.state }
        ensures copies { self.new.copies ≡ aborted_copies self.old.state self.old.copies }
        ensures device { self.new.device ≡ self.old.device }
    {
        let stage = self.updater.abort()?;
        self.lists.reach(stage);
        Ok(stage)
    }

    /// The name of the decision that the device finds for the header: that of the list of the table that answers.
    pub(crate) fn look(&self, header: &Header) -> &str
        ensures looked { result.now ≡ text_of (looked self.now.state header.now.values) }
        ensures decided { result.now ≡ text_of (decided self.now.state self.now.copies header.now.values) }
    {
        let _lists = &self.lists;
        are_five(header.values);
        self.updater.look(header)
    }
}

/// Five values are five. The call does nothing: it tells its caller so.
fn are_five(values: [u32; 5])
    ensures { length values ≡ 5 }
{
    let _values = values;
}
