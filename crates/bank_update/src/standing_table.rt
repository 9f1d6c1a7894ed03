//! A table where it stands, and how the writes of an update are told that leads to another one.
ghost use Rattle.std.specs.Prelude.{◌≡◌, ◌≤◌, ◌<◌, ℕ, Some, length, slice_get};
ghost use Rattle.field_boxes.specs.Headline.Names.{text_of};
ghost use Rattle.field_boxes.specs.Names.{name_at};
ghost use Rattle.bank_update.specs.Plans.{Plan};
ghost use Rattle.bank_update.specs.Standing.{Standing, is_taken};

use crate::write::Write;

/// A table in the slots of a memory. An update leads to another one by writes, which its plan tells.
pub trait StandingTable: Drop {
    /// What is kept of an update: what tells its writes, and the new table.
    type Plan: Drop;

    /// What each slot holds, and the names of the decisions.
    ghost standing: { Self → Standing };

    /// The writes from a table, and the table that they lead to.
    ghost planned: { Standing → Self.Plan → Plan };

    /// What is relied on of a plan for a table.
    ghost suits: { Standing → Self.Plan → Type 0 };

    /// How many writes there are.
    fn count(&self, plan: &Self::Plan) -> u64
        requires { suits (standing self.now) plan.now }
        ensures { result ≡ length (planned (standing self.now) plan.now).writes };

    /// A write, counted from 0.
    fn write(&self, plan: &Self::Plan, place: u64) -> Write
        requires suits { suits (standing self.now) plan.now }
        requires place { place < length (planned (standing self.now) plan.now).writes }
        ensures { slice_get (planned (standing self.now) plan.now).writes place ≡ Some result };

    /// Whether an entry of the new table is to stand in the slot.
    fn puts(&self, plan: &Self::Plan, slot: u32) -> bool
        requires { suits (standing self.now) plan.now }
        ensures { result ≡ is_taken (planned (standing self.now) plan.now).new.slots slot };

    /// The text of a decision.
    fn name(&self, decision: u32) -> &str
        requires { decision ≤ length (standing self.now).names }
        ensures { result.now ≡ text_of (name_at (standing self.now).names decision) };

    /// The text of a decision of the new table.
    fn new_name<'a>(&self, plan: &'a Self::Plan, decision: u32) -> &'a str
        requires suits { suits (standing self.now) plan.now }
        requires number { decision ≤ length (planned (standing self.now) plan.now).new.names }
        ensures { result.now ≡ text_of (name_at (planned (standing self.now) plan.now).new.names decision) };

    /// The new table settles.
    fn settle(&mut self, plan: Self::Plan)
        requires { suits (standing self.old) plan }
        ensures { standing self.new ≡ (planned (standing self.old) plan).new };
}
