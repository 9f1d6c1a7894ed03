//! Rules in an order that edits change.
//!
//! A rule takes some 300 bytes and its number takes four. So rules stay where they were put, and from the first edit on an
//! edit moves numbers alone. A rule that was taken out is kept until the rules are gathered.
ghost use Rattle.std.specs.Prelude.{◌≡◌, ◌≤◌, insert, length, IfOk, OnOk, OnErr};
ghost use Rattle.std.specs.List.{range_with_len};
ghost use Rattle.edit_session.specs.Ordered.{AreWithin, gathered};

use field_boxes::Rule;
use razor_base::Memory;
use std::alloc::Global;
use std::marker::Model;
use std::slice::from_ref;

/// Rules in their order.
#[derive(Drop)]
pub(crate) struct Ordered {
    alloc: Global,
    kept: Vec<Rule>,
    /// Where the rules of the order are kept, one behind the other. None where they are kept in their order.
    places: Option<Vec<u32>>,
}

impl Model for Ordered {
    ghost use Rattle.std.specs.Prelude.{List};
    ghost use Rattle.field_boxes.specs.declared.rule.Rule.{Rule};
    ghost use Rattle.edit_session.specs.Ordered.{IsOrdered, ordered};

    ghost Value = { List Rule };

    ghost view = { ordered };

    ghost invariant = { IsOrdered };
}

impl Ordered {
    ghost use Rattle.std.specs.Prelude.{◌≡◌, ◌≤◌, ◌<◌, insert, length, remove, IfOk, OnOk, OnErr};

    /// The rules, in the order in which they stand.
    pub(crate) fn of(alloc: Global, rules: Vec<Rule>) -> Self
        ensures { result ≡ rules.items }
    {
        Ordered {
            alloc,
            kept: rules,
            places: None,
        }
    }

    /// How many rules there are.
    pub(crate) fn count(&self) -> usize
        ensures { result ≡ length self.now }
    {
        match &self.places {
            Some(places) => places.len(),
            None => self.kept.len(),
        }
    }

    /// The rules, one behind the other in their order.
    pub(crate) fn gather(&self, alloc: Global) -> Result<Vec<Rule>, Memory>
        ensures { IfOk result (λ rules. rules.items ≡ self.now) }
    {
        match &self.places {
            Some(places) => gathered(alloc, self.kept.as_slice(), places.as_slice()),
            None => Ok(self.kept.as_slice().to_vec(alloc)?),
        }
    }

    /// Puts the rule at the place, counted from 0. After a refusal all is as it was.
    pub(crate) fn insert(&mut self, index: usize, rule: &Rule) -> Result<(), Memory>
        requires { index ≤ length self.old }
        ensures ok { OnOk result (self.new ≡ insert self.old index rule.now) }
        ensures err { OnErr result (self.new ≡ self.old) }
    {
        self.number();
        match &mut self.places {
            Some(places) => put(&mut self.kept, places, index, rule),
            None => Err(Memory),
        }
    }

    /// Takes out the rule at the place, counted from 0. Where memory is refused for numbers, it moves the rules.
    pub(crate) fn remove(&mut self, index: usize)
        requires { index < length self.old }
        ensures { self.new ≡ remove self.old index }
    {
        self.number();
        match &mut self.places {
            Some(places) => {
                let _number = places.remove(index);
            }
            None => {
                let _rule = self.kept.remove(index);
            }
        }
    }

    /// Numbers the rules, unless they have numbers, or memory is refused.
    fn number(&mut self)
        ensures { self.new ≡ self.old }
    {
        if self.places.is_none() {
            self.places = numbers(self.alloc, self.kept.len()).ok();
        }
    }
}

/// The numbers from 0 on.
fn numbers(alloc: Global, count: usize) -> Result<Vec<u32>, Memory>
    ensures { IfOk result (λ numbers. numbers.items ≡ range_with_len 0 count) }
{
    let count = number_of(count)?;
    let mut numbers = Vec::new(alloc);
    for number in 0..count {
        numbers.push(number)?;
    }
    Ok(numbers)
}

/// A count as a number; no memory has room for more rules than there are numbers.
fn number_of(count: usize) -> Result<u32, Memory>
    ensures { IfOk result (λ number. number ≡ count) }
{
    u32::try_from(count).map_err(|_refused| Memory)
}

/// The rules at these places, one behind the other.
fn gathered(alloc: Global, kept: &[Rule], places: &[u32]) -> Result<Vec<Rule>, Memory>
    requires { AreWithin kept.now places.now }
    ensures { IfOk result (λ rules. rules.items ≡ gathered kept.now places.now) }
{
    let mut rules = Vec::with_capacity(alloc, places.len())?;
    for &place in places {
        rules.push(kept[place as usize])?;
    }
    Ok(rules)
}

/// Keeps the rule behind the others, and puts its number at the place. After a refusal the order is as it was.
fn put(kept: &mut Vec<Rule>, places: &mut Vec<u32>, index: usize, rule: &Rule) -> Result<(), Memory>
    requires within { AreWithin kept.old.items places.old.items }
    requires place { index ≤ length places.old.items }
    ensures within { AreWithin kept.new.items places.new.items }
    ensures ok { OnOk result (gathered kept.new.items places.new.items ≡ insert (gathered kept.old.items places.old.items) index rule.now) }
    ensures err { OnErr result (gathered kept.new.items places.new.items ≡ gathered kept.old.items places.old.items) }
{
    let number = number_of(kept.len())?;
    kept.extend_from_slice(from_ref(rule))?;
    places.insert(index, number)?;
    Ok(())
}
