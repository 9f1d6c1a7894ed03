//! Rules with the names of their decisions, and their edits.
ghost use Rattle.std.specs.Prelude.{◌≡◌, ◌≤◌, length, OnOk, OnErr};
ghost use Rattle.razor_limits.specs.declared.limits.TheConstants.{MOST_RULES, MOST_ENTRIES};
ghost use Rattle.field_boxes.specs.FilterRules.{IsFilterRule};
ghost use Rattle.edit_session.specs.Kept.{IsPut};
ghost use Rattle.edit_session.specs.Lists.{IsEditable, is_within};

use crate::ordered::Ordered;
use crate::refusal::{NoPlace, PlaceRefusal};
use field_boxes::{Decisions, Ports, Rule, RuleList};
use razor_base::Memory;
use razor_base::limits::MOST_RULES;
use std::alloc::Global;
use std::marker::Model;

/// The rules of a list in their order, and the names of their decisions.
#[derive(Drop)]
pub(crate) struct Listing {
    rules: Ordered,
    names: Decisions,
}

impl Model for Listing {
    ghost use Rattle.edit_session.specs.Lists.{Listed};

    ghost Value = { Listed };

    ghost use Rattle.edit_session.specs.Kept.{IsListing, listed};

    ghost view = { listed };

    ghost invariant = { IsListing };
}

impl Listing {
    ghost use Rattle.std.specs.Prelude.{◌≡◌, ◌≤◌, ◌<◌, [], length, All, IfOk, IfErr, IsTrue, OnOk};
    ghost use Rattle.field_boxes.specs.NamedRules.{IsNumberedBy, named_rules};
    ghost use Rattle.field_boxes.specs.Names.{AreNames, is_decision_word};
    ghost use Rattle.field_boxes.specs.FilterRules.{IsFilterRule};
    ghost use Rattle.edit_session.specs.Editing.{IsAddRefused};
    ghost use Rattle.edit_session.specs.Lists.{IsEditable, add_answer, rule_named, take_out_answer, taken_out, with_rule};

    /// No rule, and no name.
    pub(crate) fn empty(alloc: Global) -> Self
        ensures { result ≡ record { rules = []; names = [] } }
    {
        Listing {
            rules: Ordered::of(alloc, Vec::new(alloc)),
            names: Decisions::new(alloc),
        }
    }

    /// The rules and names of the list.
    pub(crate) fn of(alloc: Global, list: RuleList) -> Self
        ensures { result ≡ record { rules = named_rules list.names list.rules.items; names = list.names } }
    {
        Listing {
            rules: Ordered::of(alloc, list.rules),
            names: list.names,
        }
    }

    /// The rules, one behind the other in their order.
    pub(crate) fn rules(&self, alloc: Global) -> Result<Vec<Rule>, Memory>
        ensures rules { IfOk result (λ rules. named_rules self.now.names rules.items ≡ self.now.rules) }
        ensures numbered { IfOk result (λ rules. All (IsNumberedBy self.now.names) rules.items) }
        ensures spelled { IfOk result (λ rules. All IsFilterRule rules.items) }
        ensures few { IfOk result (λ rules. length rules.items ≤ MOST_RULES) }
    {
        self.rules.gather(alloc)
    }

    /// The names of the decisions.
    pub(crate) fn names(&self) -> &Decisions
        ensures { result.now ≡ self.now.names }
    {
        &self.names
    }

    /// Keeps its rules, which come one behind the other in their order, and no other. Answers a copy, with the same names
    /// under the same numbers.
    pub(crate) fn settle(&mut self, alloc: Global, rules: Vec<Rule>) -> Result<Listing, Memory>
        requires rules { named_rules self.old.names rules.items ≡ self.old.rules }
        requires numbered { All (IsNumberedBy self.old.names) rules.items }
        requires spelled { All IsFilterRule rules.items }
        requires few { length rules.items ≤ MOST_RULES }
        ensures copy { IfOk result (λ copy. copy ≡ self.old) }
        ensures same { self.new ≡ self.old }
    {
        let copy = rules.as_slice().to_vec(alloc)?;
        let names = self.names.copy(alloc)?;
        self.rules = Ordered::of(alloc, rules);
        Ok(Listing {
            rules: Ordered::of(alloc, copy),
            names,
        })
    }

    /// How many rules there are.
    pub(crate) fn count(&self) -> u32
        ensures count { result ≡ length self.now.rules }
        ensures few { result ≤ MOST_RULES }
    {
        self.rules.count() as u32
    }

    /// How many rules there are with one more at this place, counted from 1, or why there is none more.
    fn count_with(&self, place: u32) -> Result<u32, PlaceRefusal>
        ensures { result ≡ add_answer self.now place }
    {
        let count = self.count();
        if !is_within(place, count + 1) {
            return Err(PlaceRefusal::NoPlace { count });
        }
        if count == MOST_RULES {
            return Err(PlaceRefusal::Full);
        }
        Ok(count + 1)
    }

    /// Gives the rule this name and this place, counted from 1, and answers how many rules there are then.
    ///
    /// After `Memory` the name may be among the names; the rules are as they were after each refusal.
    pub(crate) fn add(&mut self, place: u32, rule: &Rule, name: &str) -> Result<u32, PlaceRefusal>
        requires rule { IsEditable rule.now }
        requires word { IsTrue (is_decision_word name.now) }
        requires room { length self.old.names < MOST_ENTRIES }
        ensures ok { IfOk result (λ count. add_answer self.old place ≡ Ok count) }
        ensures added { OnOk result (self.new ≡ with_rule self.old place (rule_named name.now rule.now)) }
        ensures refused { IfErr result (λ refusal. IsAddRefused self.old self.new place name.now refusal) }
    {
        ports_are_sets(rule);
        let count = self.count_with(place)?;
        let decision = self.names.intern(name)?;
        let index = place as usize - 1;
        put(&mut self.rules, index, rule, rule.ports, decision)?;
        Ok(count)
    }

    /// Takes the rule with this number out, counted from 1, and answers how many rules are left. It needs no memory.
    pub(crate) fn take_out(&mut self, place: u32) -> Result<u32, NoPlace>
        ensures answer { result ≡ take_out_answer self.old place }
        ensures state { self.new ≡ taken_out self.old place }
    {
        let count = self.count();
        if !is_within(place, count) {
            return Err(NoPlace { count });
        }
        self.rules.remove(place as usize - 1);
        Ok(count - 1)
    }
}

/// The sets of ports of the rule are sets of ports, so a filter list can spell it. The call does nothing.
fn ports_are_sets(rule: &Rule)
    requires { IsEditable rule.now }
    ensures { IsFilterRule rule.now }
{
    let _source = rule.ports[0].spans();
    let _destination = rule.ports[1].spans();
}

/// Whether the number is one of 1 to the greatest.
fn is_within(number: u32, greatest: u32) -> bool
    ensures { result ≡ is_within number greatest }
{
    1 <= number && number <= greatest
}

/// Puts the rule with this decision at the place, counted from 0. Its sets of ports come by themselves.
fn put(
    rules: &mut Ordered,
    index: usize,
    rule: &Rule,
    ports: [Ports; 2],
    decision: u32,
) -> Result<(), Memory>
    requires place { index ≤ length rules.old }
    requires spelled { IsFilterRule rule.now }
    requires same { ports ≡ rule.now.ports }
    ensures ok { OnOk result (IsPut rules.old rules.new index rule.now decision) }
    ensures err { OnErr result (rules.new ≡ rules.old) }
{
    let added = Rule {
        source: rule.source,
        destination: rule.destination,
        ports,
        protocol: rule.protocol,
        decision,
    };
    rules.insert(index, &added)?;
    Ok(())
}
