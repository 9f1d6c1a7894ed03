//! The makers of the tables that commits hand over.
ghost use Rattle.std.specs.Prelude.{◌≡◌, ◌≤◌, length, All, IfOk, IfErr, MatchResult};
ghost use Rattle.field_boxes.specs.NamedRules.{IsNumberedBy, named_rules};
ghost use Rattle.razor_limits.specs.declared.limits.TheConstants.{MOST_RULES};
ghost use Rattle.ternary_words.specs.Views.{table_of};
ghost use Rattle.edit_session.specs.Machine.{IsTableFor};
ghost use Rattle.edit_session.specs.Methods.{IsMade, IsUnmade, method_of, method_seen};

use crate::listing::Listing;
use crate::refusal::CommitRefusal;
use field_boxes::{Decisions, Order, Rule};
use rule_compilation::Compiler;
use rule_shortening::{Shortener, Taken};
use std::alloc::Global;
use ternary_words::{Limit, SlotWidth, Table};

/// By which method the tables of a session are made of its list.
#[derive(Clone, Copy)]
pub enum Method<'a> {
    /// Compiled, with the fields read in this order.
    Compiled(&'a Order),
    /// By a search for a short table.
    Shortened,
}

/// Makes the tables of lists one after another. It may keep what it worked out of other lists, which changes the
/// time that it takes, and which of several good tables it makes, and nothing else.
#[derive(Drop)]
pub(crate) enum Maker<'a> {
    Compiles(Compiler<'a>),
    Shortens(Shortener),
}

impl<'a> Maker<'a> {
    /// A maker by the method, which has met no list.
    pub(crate) fn new(alloc: Global, method: Method<'a>) -> Maker<'a>
        ensures { method_of result ≡ method_seen method.entry }
    {
        match method {
            Method::Compiled(order) => Maker::Compiles(Compiler::new(alloc, order)),
            Method::Shortened => Maker::Shortens(Shortener::new(alloc)),
        }
    }

    /// The table of the list, of which these are the rules in their order, for slots of the width. The table that is settled takes
    /// these slots.
    pub(crate) fn table(
        &mut self,
        list: &Listing,
        rules: &[Rule],
        taken: &Taken,
        limit: Limit,
        slot: SlotWidth,
    ) -> Result<Table, CommitRefusal>
        requires rules { named_rules list.now.names rules.now ≡ list.now.rules }
        requires numbered { All (IsNumberedBy list.now.names) rules.now }
        requires few { length rules.now ≤ MOST_RULES }
        ensures table { IfOk result (IsTableFor (method_of self.old) list.now slot.bits limit.count) }
        ensures refused { IfErr result (IsUnmade (method_of self.old) list.now.rules limit.count) }
        ensures method { method_of self.new ≡ method_of self.old }
    {
        self.made(rules, list.names(), taken, limit, slot)
    }

    /// Whether another table of the list can be made than the last one.
    pub(crate) fn has_other(&self) -> bool {
        match self {
            Maker::Compiles(_) => false,
            Maker::Shortens(shortener) => shortener.has_other(),
        }
    }

    /// An update to the table that was made last has begun.
    pub(crate) fn begin(&mut self)
        ensures { method_of self.new ≡ method_of self.old }
    {
        if let Maker::Shortens(shortener) = self {
            shortener.begin();
        }
    }

    /// That update goes back.
    pub(crate) fn abort(&mut self)
        ensures { method_of self.new ≡ method_of self.old }
    {
        if let Maker::Shortens(shortener) = self {
            shortener.abort();
        }
    }

    /// The table of the rules.
    fn made(
        &mut self,
        rules: &[Rule],
        names: &Decisions,
        taken: &Taken,
        limit: Limit,
        slot: SlotWidth,
    ) -> Result<Table, CommitRefusal>
        requires few { length rules.now ≤ MOST_RULES }
        requires numbered { All (IsNumberedBy names.now) rules.now }
        ensures table { MatchResult result
            (λ table. IsMade (method_of self.old) (named_rules names.now rules.now) limit.count slot.bits (table_of table))
            (IsUnmade (method_of self.old) (named_rules names.now rules.now) limit.count) }
        ensures names { IfOk result (λ table. table.names ≡ names.now) }
        ensures method { method_of self.new ≡ method_of self.old }
    {
        match self {
            Maker::Compiles(compiler) => Ok(compiler.compile(rules, names, limit, slot)?),
            Maker::Shortens(shortener) => {
                shortener.stand(taken)?;
                Ok(shortener.shorten(rules, names, limit, slot)?)
            }
        }
    }
}
