//! A device whose table is replaced write by write.
use crate::progress::Progress;
use crate::refusal::{Idle, StepRefusal};
use crate::stage::Stage;
use crate::standing_table::StandingTable;
use field_boxes::Header;
use std::marker::Model;
use tcam_sim::Device;

/// A device whose table is replaced write by write, by a plan.
///
/// Whatever was done and whichever writes failed, the slots hold what the state says, and a lookup is answered
/// as the old table or as the new one. No call takes memory.
#[derive(Drop)]
pub struct Updater<V: Device, T: StandingTable> {
    device: V,
    progress: Progress<T>,
}

impl<V: Device, T: StandingTable> Model for Updater<V, T> {
    ghost use Rattle.std.specs.Prelude.{◌≡◌};
    ghost use Rattle.bank_update.specs.Machine.{held};
    ghost use Rattle.bank_update.specs.Swapping.{Swapping};

    ghost Value = { Swapping V };

    ghost view = { λ s. record { device = s.device; state = s.progress } };

    ghost invariant = { λ s. V.held s.device ≡ held s.progress };
}

impl<V: Device, T: StandingTable> Updater<V, T> {
    ghost use Rattle.std.specs.Prelude.{◌≡◌, ◌≢◌, ◌≤◌, ◌↔◌, ℕ, List, None, Some, Err, length, ok_or, IfOk, OnOk, OnErr};
    ghost use Rattle.razor_limits.specs.Counts.{counted, Rose};
    ghost use Rattle.field_boxes.specs.Headline.Names.{text_of};
    ghost use Rattle.ternary_words.specs.Limits.{AreNumbered};
    ghost use Rattle.bank_update.specs.Machine.{abort_answer, aborted, begun_by, held, looked, old_or_new, stage, step_answer, stepped};
    ghost use Rattle.bank_update.specs.Sound.{IsSound, MayBegin};
    ghost use Rattle.bank_update.specs.Standing.{bank_of, entries_in};
    ghost use Rattle.bank_update.specs.Swapping.{KeepsNew};
    ghost use Rattle.bank_update.specs.declared.refusal.StepRefusal.TheVariants as step_refusals;

    /// The table stands in the device, and no update is pending.
    pub fn over(table: T, device: V) -> Self
        requires holds { V.held device ≡ bank_of (T.standing table).slots }
        requires numbered { AreNumbered (length (T.standing table).names) (entries_in (T.standing table).slots) }
        ensures device { result.device ≡ device }
        ensures state { result.state ≡ record { settled = T.standing table; pending = None } }
    {
        Updater {
            device,
            progress: Progress::new(table),
        }
    }

    /// The device.
    pub fn device(&self) -> &V
        ensures device { result.now ≡ self.now.device }
        ensures held { V.held result.now ≡ held self.now.state }
    {
        &self.device
    }

    /// The settled table.
    pub fn settled(&self) -> &T
        ensures { T.standing result.now ≡ self.now.state.settled }
    {
        self.progress.settled()
    }

    /// The stage of the update that is pending; none exactly where none is.
    pub fn stage(&self) -> Option<Stage>
        ensures stage { result ≡ stage self.now.state }
        ensures sound { IsSound self.now.state }
    {
        self.progress.soundness();
        self.progress.stage()
    }

    /// Begins an update by the plan, and answers how many writes it has; one without any is over at once.
    pub fn begin_by(&mut self, plan: T::Plan) -> u64
        requires idle { self.old.state.pending ≡ None }
        requires plan { MayBegin self.old.state.settled (T.planned self.old.state.settled plan) }
        requires suits { T.suits self.old.state.settled plan }
        ensures state { self.new.state ≡ begun_by self.old.state (T.planned self.old.state.settled plan) }
        ensures total { result ≡ length (T.planned self.old.state.settled plan).writes }
        ensures device { self.new.device ≡ self.old.device }
    {
        self.progress.begin(plan)
    }

    /// Does the next write, or undoes the last one where the update goes back, and answers the stage.
    pub fn step(&mut self) -> Result<Stage, StepRefusal>
        ensures ok { IfOk result (λ stage. step_answer self.old.state ≡ Some stage) }
        ensures stepped { OnOk result (self.new.state ≡ stepped self.old.state) }
        ensures idle { result ≡ Err step_refusals.Idle ↔ self.old.state.pending ≡ None }
        ensures unchanged { OnErr result (self.new.state ≡ self.old.state) }

        // One write is tried and no other, whether it fails or not; none where no update is pending.
        ensures one_try { self.old.state.pending ≢ None → V.tries self.new.device ≡ counted (V.tries self.old.device) }
        ensures no_try { self.old.state.pending ≡ None → self.new ≡ self.old }

        // No answer goes from new back to old while the update goes forward.
        ensures keeps { (values : List ℕ) → OnOk result (KeepsNew self.old.state self.new.state values) }

        // A failure is counted, and the count doesn't fall.
        ensures fault { result ≡ Err step_refusals.DeviceFault → Rose (V.faults self.old.device) (V.faults self.new.device) }
        ensures counts { V.faults self.old.device ≤ V.faults self.new.device }
    {
        self.progress.soundness();
        let Some(write) = self.progress.next_write() else {
            return Err(StepRefusal::Idle);
        };
        if self.device.set(write.slot, write.entry).is_err() {
            return Err(StepRefusal::DeviceFault);
        }
        match self.progress.advance() {
            Some(stage) => Ok(stage),
            None => Err(StepRefusal::Idle),
        }
    }

    /// Lets the update go back from now on, and answers its stage. One with no write done is over at once.
    pub fn abort(&mut self) -> Result<Stage, Idle>
        ensures answer { result ≡ ok_or (abort_answer self.old.state) (record {}) }
        ensures state { self.new.state ≡ aborted self.old.state }
        ensures device { self.new.device ≡ self.old.device }
    {
        self.progress.soundness();
        match self.progress.abort() {
            Some(stage) => Ok(stage),
            None => Err(Idle),
        }
    }

    /// The name of the decision that the device finds for the header, in the table whose slot it is; `miss` where
    /// it finds none.
    pub fn look(&self, header: &Header) -> &str
        ensures looked { result.now ≡ text_of (looked self.now.state header.now.values) }
        ensures old_or_new { result.now ≡ text_of (old_or_new self.now.state self.now.state.pending header.now.values) }
    {
        self.progress.soundness();
        match self.device.look(header) {
            Some((slot, decision)) => self.progress.name(slot, decision),
            None => "miss",
        }
    }
}
