//! How far a memory is: its settled table, and the update that is pending.
ghost use Rattle.std.specs.Prelude.{◌≡◌, ◌<◌, ◌+◌, ◌-◌, ◌^◌, true, if◌then◌else◌};
ghost use Rattle.bank_update.specs.Kept.{update_of};
ghost use Rattle.bank_update.specs.Machine.{stage_of};

use crate::stage::Stage;
use crate::standing_table::StandingTable;
use crate::underway::Underway;
use crate::write::Put;
use std::marker::Model;

/// The settled table, and the update that is pending, if one is.
#[derive(Drop)]
pub(crate) struct Progress<T: StandingTable> {
    settled: T,
    pending: Option<Underway<T::Plan>>,
}

impl<T: StandingTable> Model for Progress<T> {
    ghost use Rattle.std.specs.Prelude.{IfSome, option_map};
    ghost use Rattle.bank_update.specs.Kept.{update_of};
    ghost use Rattle.bank_update.specs.Machine.{State};
    ghost use Rattle.bank_update.specs.Sound.{IsSound};

    ghost Value = { State };

    ghost view = { λ p. record { settled = T.standing p.settled; pending = option_map (update_of (T.planned (T.standing p.settled))) p.pending } };

    ghost invariant = { λ p. IsSound (record { settled = T.standing p.settled; pending = option_map (update_of (T.planned (T.standing p.settled))) p.pending })
        × IfSome p.pending (λ u. T.suits (T.standing p.settled) u.plan) };
}

impl<T: StandingTable> Progress<T> {
    ghost use Rattle.std.specs.Prelude.{◌≡◌, ◌≤◌, ◌<◌, length, None, MatchOption};
    ghost use Rattle.field_boxes.specs.Headline.Names.{text_of};
    ghost use Rattle.field_boxes.specs.Names.{name_at};
    ghost use Rattle.ternary_words.specs.Limits.{AreNumbered};
    ghost use Rattle.bank_update.specs.Kept.{update_of};
    ghost use Rattle.bank_update.specs.Machine.{abort_answer, aborted, begun_by, names_for, reached, stage, step_answer, stepped};
    ghost use Rattle.bank_update.specs.Next.{IsNextWrite, MayReach};
    ghost use Rattle.bank_update.specs.Sound.{IsSound, MayBegin};
    ghost use Rattle.bank_update.specs.Standing.{entries_in};

    /// The table is settled, and no update is pending.
    pub(crate) fn new(settled: T) -> Self
        requires { AreNumbered (length (T.standing settled).names) (entries_in (T.standing settled).slots) }
        ensures { result ≡ record { settled = T.standing settled; pending = None } }
    {
        Progress {
            settled,
            pending: None,
        }
    }

    /// What always holds of the state. It does nothing.
    pub(crate) fn soundness(&self)
        ensures { IsSound self.now }
    {
        let _pending = self.pending.is_some();
    }

    /// The settled table.
    pub(crate) fn settled(&self) -> &T
        ensures { T.standing result.now ≡ self.now.settled }
    {
        &self.settled
    }

    /// The stage of the update that is pending.
    pub(crate) fn stage(&self) -> Option<Stage>
        ensures { result ≡ stage self.now }
    {
        let update = self.pending.as_ref()?;
        Some(stage_of(&self.settled, update))
    }

    /// Begins an update by the plan, and answers how many writes it has; one without any is over at once.
    pub(crate) fn begin(&mut self, plan: T::Plan) -> u64
        requires idle { self.old.pending ≡ None }
        requires plan { MayBegin self.old.settled (T.planned self.old.settled plan) }
        requires suits { T.suits self.old.settled plan }
        ensures state { self.new ≡ begun_by self.old (T.planned self.old.settled plan) }
        ensures total { result ≡ length (T.planned self.old.settled plan).writes }
    {
        let total = self.settled.count(&plan);
        self.reach(Underway {
            plan,
            done: 0,
            back: false,
        });
        total
    }

    /// The update has reached its stage: it stays pending, or it is over.
    fn reach(&mut self, update: Underway<T::Plan>)
        requires may { MayReach self.old (update_of (T.planned self.old.settled) update) }
        requires suits { T.suits self.old.settled update.plan }
        ensures { self.new ≡ reached self.old (update_of (T.planned self.old.settled) update) }
    {
        if update.back {
            if update.done == 0 {
                self.pending = None;
                return;
            }
            self.pending = Some(update);
            return;
        }
        if update.done == self.settled.count(&update.plan) {
            self.settle(update.plan);
            return;
        }
        self.pending = Some(update);
    }

    /// The new table settles, and no update is pending.
    fn settle(&mut self, plan: T::Plan)
        requires suits { T.suits self.old.settled plan }
        requires plan { MayBegin self.old.settled (T.planned self.old.settled plan) }
        ensures { self.new ≡ record { settled = (T.planned self.old.settled plan).new; pending = None } }
    {
        self.settled.settle(plan);
        self.pending = None;
    }

    /// The write of the next step; none where no update is pending.
    pub(crate) fn next_write(&self) -> Option<Put>
        ensures { MatchOption result (self.now.pending ≡ None) (λ write. IsNextWrite self.now write) }
    {
        let update = self.pending.as_ref()?;
        if update.back {
            let write = self.settled.write(&update.plan, update.done - 1);
            return Some(Put {
                slot: write.slot,
                entry: write.before,
            });
        }
        let write = self.settled.write(&update.plan, update.done);
        Some(Put {
            slot: write.slot,
            entry: write.entry,
        })
    }

    /// Counts the write that was done, and answers the stage that it reached; none where no update is pending.
    pub(crate) fn advance(&mut self) -> Option<Stage>
        ensures state { self.new ≡ stepped self.old }
        ensures stage { result ≡ step_answer self.old }
    {
        let mut update = self.pending.take()?;
        let total = self.settled.count(&update.plan);
        update.done = moved(update.done, total, update.back);
        let stage = stage_of(&self.settled, &update);
        self.reach(update);
        Some(stage)
    }

    /// Lets the update go back from now on, and answers its stage; none where no update is pending.
    pub(crate) fn abort(&mut self) -> Option<Stage>
        ensures state { self.new ≡ aborted self.old }
        ensures stage { result ≡ abort_answer self.old }
    {
        let mut update = self.pending.take()?;
        update.back = true;
        let stage = stage_of(&self.settled, &update);
        self.reach(update);
        Some(stage)
    }

    /// The text of the decision that was found in a slot.
    pub(crate) fn name(&self, slot: u32, decision: u32) -> &str
        requires { decision ≤ length (names_for self.now slot) }
        ensures { result.now ≡ text_of (name_at (names_for self.now slot) decision) }
    {
        let Some(update) = &self.pending else {
            return self.settled.name(decision);
        };
        if self.settled.puts(&update.plan, slot) {
            return self.settled.new_name(&update.plan, decision);
        }
        self.settled.name(decision)
    }
}

/// The stage of the update of this table.
fn stage_of<T: StandingTable>(settled: &T, update: &Underway<T::Plan>) -> Stage
    requires { T.suits (T.standing settled.now) update.now.plan }
    ensures { result ≡ stage_of (update_of (T.planned (T.standing settled.now)) update.now) }
{
    Stage {
        done: update.done,
        total: settled.count(&update.plan),
        back: update.back,
    }
}

/// How many writes are done after the next step, where some are left.
fn moved(done: u64, total: u64, back: bool) -> u64
    requires some { back ≡ true → 0 < done }
    requires left { done < total }
    ensures { result ≡ (if back then done - 1 else done + 1) }
{
    if back { done - 1 } else { done + 1 }
}
