//! The editing session over a memory: its events, one call each.
ghost use Rattle.razor_limits.specs.declared.limits.TheConstants.{MOST_ENTRIES, MOST_RULES};

use crate::list_swapper::ListSwapper;
use crate::listing::Listing;
use crate::maker::{Maker, Method};
use crate::refusal::{CommitRefusal, NoPlace, PlaceRefusal};
use crate::way::Replaced;
use bank_update::{Block, Idle, Stage, StepRefusal, Swapper, Updater};
use field_boxes::{Decisions, Header, Rule, RuleList};
use razor_base::Memory;
use slot_patch::{SlotTable, new_patcher};
use std::alloc::Global;
use std::marker::Model;
use tcam_sim::Device;
use ternary_words::{Limit, SlotWidth, Table};

/// A rule list that is edited, and a memory into which the tables of the list are swapped write by write.
///
/// Edits change the list alone. [`commit`] makes a table of the list as it is then, and begins a swap to it; a
/// copy of the list goes with the table. Whatever was done and whichever writes failed, a lookup is answered by
/// the list that the settled table was made of, or by that of the pending one.
///
/// [`commit`]: Editor::commit
#[derive(Drop)]
pub struct Editor<'a, V: Device, T: Replaced = Block> {
    alloc: Global,
    list: Listing,
    maker: Maker<'a>,
    swapper: ListSwapper<V, T>,
    slot: SlotWidth,
    limit: Limit,
}

impl<'a, V: Device, T: Replaced> Model for Editor<'a, V, T> {
    ghost use Rattle.edit_session.specs.Editing.{Editing};
    ghost use Rattle.edit_session.specs.Methods.{method_of};

    ghost Value = { Editing V };

    ghost view = { λ e. record { device = e.swapper.device; session = record { list = e.list; state = e.swapper.state; copies = e.swapper.copies; method = method_of e.maker; way = T.way; slot = e.slot.bits; limit = e.limit.count } } };
}

impl<'a, V: Device> Editor<'a, V, Block> {
    ghost use Rattle.std.specs.Prelude.{◌≡◌, None, length, replicate};
    ghost use Rattle.field_boxes.specs.NamedRules.{named_rules};
    ghost use Rattle.edit_session.specs.Machine.{opened};
    ghost use Rattle.edit_session.specs.Methods.{method_seen};
    ghost use Rattle.edit_session.specs.Ways.{Whole};

    /// A session over the list and an empty memory, whose tables are made by the method, for slots of the width and within
    /// `limit` entries. Each table is written whole beside the old one.
    pub fn new(
        alloc: Global,
        list: RuleList,
        method: Method<'a>,
        slot: SlotWidth,
        limit: Limit,
        device: V,
    ) -> Self
        requires empty { V.held device ≡ replicate (length (V.held device)) None }
        ensures device { result.device ≡ device }
        ensures session { result.session ≡ opened (record { rules = named_rules list.names list.rules.items; names = list.names }) (method_seen method.entry) Whole (length (V.held device)) slot.bits limit.count }
    {
        Editor::over(alloc, list, method, slot, limit, Swapper::new(device))
    }
}

impl<'a, V: Device> Editor<'a, V, SlotTable> {
    ghost use Rattle.std.specs.Prelude.{◌≡◌, None, length, replicate, IfOk, IfErr};
    ghost use Rattle.field_boxes.specs.NamedRules.{named_rules};
    ghost use Rattle.edit_session.specs.Machine.{opened};
    ghost use Rattle.edit_session.specs.Methods.{method_seen};
    ghost use Rattle.edit_session.specs.Ways.{InPlace};

    /// As `new`; but each table is written in the slots where the old one stands, by few writes. Where memory is
    /// refused, the device comes back.
    pub fn in_place(
        alloc: Global,
        list: RuleList,
        method: Method<'a>,
        slot: SlotWidth,
        limit: Limit,
        device: V,
    ) -> Result<Self, (V, Memory)>
        requires empty { V.held device ≡ replicate (length (V.held device)) None }
        ensures device { IfOk result (λ editor. editor.device ≡ device) }
        ensures session { IfOk result (λ editor. editor.session ≡ opened (record { rules = named_rules list.names list.rules.items; names = list.names }) (method_seen method.entry) InPlace (length (V.held device)) slot.bits limit.count) }
        ensures err { IfErr result (λ refused. refused.0 ≡ device) }
    {
        match new_patcher(alloc, device) {
            Ok(patcher) => Ok(Editor::over(alloc, list, method, slot, limit, patcher)),
            Err(refused) => Err(refused),
        }
    }
}

impl<'a, V: Device, T: Replaced> Editor<'a, V, T> {
    ghost use Rattle.std.specs.Prelude.{◌≡◌, ◌≢◌, ◌≤◌, ◌<◌, ◌↔◌, ℕ, List, None, Some, Ok, Err, All, length, replicate, ok_or, IfOk, IfErr, IsTrue, OnOk, OnErr};
    ghost use Rattle.razor_limits.specs.Counts.{counted, Rose};
    ghost use Rattle.field_boxes.specs.NamedRules.{IsNumberedBy, named_rules};
    ghost use Rattle.field_boxes.specs.Headline.Names.{text_of};
    ghost use Rattle.field_boxes.specs.Names.{is_decision_word};
    ghost use Rattle.field_boxes.specs.FilterRules.{IsFilterRule};
    ghost use Rattle.bank_update.specs.Machine.{abort_answer, held, looked, stage, step_answer};
    ghost use Rattle.bank_update.specs.Sound.{IsSound};
    ghost use Rattle.bank_update.specs.Swapping.{KeepsNew};
    ghost use Rattle.bank_update.specs.Whole.{unsettled};
    ghost use Rattle.bank_update.specs.declared.refusal.StepRefusal.TheVariants as step_refusals;
    ghost use Rattle.edit_session.specs.Editing.{IsAddRefused};
    ghost use Rattle.edit_session.specs.Lists.{IsEditable, add_answer, rule_named, take_out_answer, taken_out, with_rule};
    ghost use Rattle.edit_session.specs.Machine.{IsCommit, IsTableFor, aborted, decided, opened, stepped, with_list};
    ghost use Rattle.edit_session.specs.Methods.{method_seen};
    ghost use Rattle.edit_session.specs.Sound.{AreTablesOf};
    ghost use Rattle.edit_session.specs.declared.refusal.CommitRefusal.TheVariants as commit_refusals;

    /// A session over the list and a memory without a table.
    fn over(
        alloc: Global,
        list: RuleList,
        method: Method<'a>,
        slot: SlotWidth,
        limit: Limit,
        updater: Updater<V, T>,
    ) -> Self
        requires empty { updater.state ≡ unsettled (length (V.held updater.device)) }
        ensures device { result.device ≡ updater.device }
        ensures session { result.session ≡ opened (record { rules = named_rules list.names list.rules.items; names = list.names }) (method_seen method.entry) T.way (length (V.held updater.device)) slot.bits limit.count }
    {
        Editor {
            alloc,
            list: Listing::of(alloc, list),
            maker: Maker::new(alloc, method),
            swapper: ListSwapper::new(alloc, updater),
            slot,
            limit,
        }
    }

    /// The device.
    pub fn device(&self) -> &V
        ensures device { result.now ≡ self.now.device }
        ensures held { V.held result.now ≡ held self.now.session.state }
    {
        self.swapper.device()
    }

    /// The rules of the list, in their order. They are gathered for the call; [`Editor::count`] says how many there are.
    pub fn rules(&self, alloc: Global) -> Result<Vec<Rule>, Memory>
        ensures rules { IfOk result (λ rules. named_rules self.now.session.list.names rules.items ≡ self.now.session.list.rules) }
        ensures numbered { IfOk result (λ rules. All (IsNumberedBy self.now.session.list.names) rules.items) }
        ensures spelled { IfOk result (λ rules. All IsFilterRule rules.items) }
        ensures few { IfOk result (λ rules. length rules.items ≤ MOST_RULES) }
    {
        self.list.rules(alloc)
    }

    /// How many rules there are.
    pub fn count(&self) -> u32
        ensures count { result ≡ length self.now.session.list.rules }
        ensures few { result ≤ MOST_RULES }
    {
        self.list.count()
    }

    /// The names of the decisions of the list, also of rules that were taken out.
    pub fn names(&self) -> &Decisions
        ensures { result.now ≡ self.now.session.list.names }
    {
        self.list.names()
    }

    /// Adds the rule with this name for its decision as rule `place`, counted from 1; the other rules keep their
    /// order. Answers how many rules there are then.
    ///
    /// After `Memory` the name may be among the names; otherwise all is as it was after a refusal.
    pub fn add(&mut self, place: u32, rule: &Rule, name: &str) -> Result<u32, PlaceRefusal>
        requires rule { IsEditable rule.now }
        requires word { IsTrue (is_decision_word name.now) }
        requires room { length self.old.session.list.names < MOST_ENTRIES }
        ensures ok { IfOk result (λ count. add_answer self.old.session.list place ≡ Ok count) }
        ensures added { OnOk result (self.new.session.list ≡ with_rule self.old.session.list place (rule_named name.now rule.now)) }
        ensures refused { IfErr result (λ refusal. IsAddRefused self.old.session.list self.new.session.list place name.now refusal) }

        // An edit changes the list alone.
        ensures session { self.new.session ≡ with_list self.old.session self.new.session.list }
        ensures device { self.new.device ≡ self.old.device }
    {
        self.list.add(place, rule, name)
    }

    /// Takes rule `place` out, counted from 1; the other rules keep their order, and all names stay. Answers how
    /// many rules are left. It needs no memory.
    pub fn take_out(&mut self, place: u32) -> Result<u32, NoPlace>
        ensures answer { result ≡ take_out_answer self.old.session.list place }
        ensures session { self.new.session ≡ with_list self.old.session (taken_out self.old.session.list place) }
        ensures device { self.new.device ≡ self.old.device }
    {
        self.list.take_out(place)
    }

    /// Makes a table of the list as it is now and begins a swap to it. Answers how many writes the swap has; one
    /// without any is over at once. What earlier commits worked out is kept, so few edits take little time.
    ///
    /// After a refusal all is as it was.
    pub fn commit(&mut self) -> Result<u64, CommitRefusal>
        ensures commit { IsCommit self.old.session self.new.session result }
        ensures busy { result ≡ Err commit_refusals.Busy ↔ self.old.session.state.pending ≢ None }
        ensures device { self.new.device ≡ self.old.device }
    {
        let ended = self.try_commit();
        if ended.is_err() && self.maker.has_other() {
            return self.try_commit();
        }
        ended
    }

    /// The same with one table of the list, where there may be another.
    fn try_commit(&mut self) -> Result<u64, CommitRefusal>
        ensures commit { IsCommit self.old.session self.new.session result }
        ensures device { self.new.device ≡ self.old.device }
    {
        if self.swapper.stage().is_some() {
            return Err(CommitRefusal::Busy);
        }
        let taken = self.swapper.taken(self.alloc)?;
        let rules = self.list.rules(self.alloc)?;
        let table = self.maker.table(&self.list, rules.as_slice(), &taken, self.limit, self.slot)?;
        let copy = self.list.settle(self.alloc, rules)?;
        self.begin(table, copy)
    }

    /// Begins a swap to a table of the list as it is now, with a copy of the list.
    fn begin(&mut self, table: Table, copy: Listing) -> Result<u64, CommitRefusal>
        requires idle { self.old.session.state.pending ≡ None }
        requires table { IsTableFor self.old.session.method self.old.session.list self.old.session.slot self.old.session.limit table }
        requires copy { copy ≡ self.old.session.list }
        ensures commit { IsCommit self.old.session self.new.session result }
        ensures device { self.new.device ≡ self.old.device }
    {
        let total = self.swapper.begin(self.alloc, table, copy)?;
        self.maker.begin();
        Ok(total)
    }

    /// Does the next write, or undoes the last one where the swap goes back, and answers the stage.
    pub fn step(&mut self) -> Result<Stage, StepRefusal>
        ensures ok { IfOk result (λ stage. step_answer self.old.session.state ≡ Some stage) }
        ensures stepped { OnOk result (self.new.session ≡ stepped self.old.session) }
        ensures idle { result ≡ Err step_refusals.Idle ↔ self.old.session.state.pending ≡ None }
        ensures unchanged { OnErr result (self.new.session ≡ self.old.session) }

        // One write is tried and no other, whether it fails or not; none where no swap is pending.
        ensures one_try { self.old.session.state.pending ≢ None → V.tries self.new.device ≡ counted (V.tries self.old.device) }
        ensures no_try { self.old.session.state.pending ≡ None → self.new ≡ self.old }

        // No answer goes from new back to old while the swap goes forward.
        ensures keeps { (values : List ℕ) → OnOk result (KeepsNew self.old.session.state self.new.session.state values) }

        // A failure is counted, and the count doesn't fall.
        ensures fault { result ≡ Err step_refusals.DeviceFault → Rose (V.faults self.old.device) (V.faults self.new.device) }
        ensures counts { V.faults self.old.device ≤ V.faults self.new.device }
    {
        self.swapper.step()
    }

    /// Lets the swap go back from now on, and answers its stage. One with no write done is over at once.
    pub fn abort(&mut self) -> Result<Stage, Idle>
        ensures answer { result ≡ ok_or (abort_answer self.old.session.state) (record {}) }
        ensures session { self.new.session ≡ aborted self.old.session }
        ensures device { self.new.device ≡ self.old.device }
    {
        let stage = self.swapper.abort()?;
        self.maker.abort();
        Ok(stage)
    }

    /// The name of the decision that the device finds for the header; `miss` where it finds none.
    ///
    /// It is what the list decides of which the table was made that answers: the settled table's list, or the
    /// pending one's.
    pub fn look(&self, header: &Header) -> &str
        ensures looked { result.now ≡ text_of (looked self.now.session.state header.now.values) }
        ensures decided { result.now ≡ text_of (decided self.now.session.state self.now.session.copies header.now.values) }
    {
        self.swapper.look(header)
    }

    /// The stage of the swap that is pending; none exactly where none is.
    pub fn stage(&self) -> Option<Stage>
        ensures stage { result ≡ stage self.now.session.state }
        ensures sound { IsSound self.now.session.state }
        ensures tables { AreTablesOf self.now.session.copies self.now.session.state }
    {
        self.swapper.stage()
    }
}
