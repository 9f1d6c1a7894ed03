//! First claims: what covers each entry and each rule.
//!
//! Mostly one rule or entry does. Where the first rule that holds an entry decides as it does, the entry needs no more;
//! else an entry before it may hold it, or the rules before that one with the entries before it may cover it.

use crate::candidates::{Candidate, Place};
use crate::claims::Claims;
use crate::cutting::Cutting;
use crate::effort::FIRST;
use crate::level::Test;
use crate::ports::{ports_hold, ports_lie_in};
use crate::sides::Sides;
use crate::tasks::Task;
use agreement_check::Step;
use razor_limits::Memory;
use ternary_words::Word;

/// Any word.
struct Any;

impl Test for Any {
    fn passes(&self, _place: u32) -> bool {
        true
    }
}

/// A rule that has all ports of a cube.
#[derive(Clone, Copy)]
struct HoldsPorts<'a> {
    sides: &'a Sides<'a>,
    cube: Word,
}

impl Test for HoldsPorts<'_> {
    fn passes(&self, place: u32) -> bool {
        match self.sides.ported(place) {
            Some(rule) => ports_hold(rule, &self.cube),
            None => true,
        }
    }
}

/// A rule that has all ports of another one.
#[derive(Clone, Copy)]
struct HoldsRule<'a> {
    sides: &'a Sides<'a>,
    place: u32,
}

impl Test for HoldsRule<'_> {
    fn passes(&self, place: u32) -> bool {
        match self.sides.ported(place) {
            Some(outer) => match self.sides.rules.get(self.place as usize) {
                Some(inner) => ports_lie_in(inner, outer),
                None => false,
            },
            None => true,
        }
    }
}

/// Claims the next entry.
pub(crate) fn claim_entry(
    sides: &Sides,
    place: u32,
    cutting: &mut Cutting,
    claims: &mut Claims,
) -> Result<(), Memory> {
    let cube = sides.table.word(place);
    let rule = sides
        .list
        .index
        .first(&cube, sides.list.last(), &HoldsPorts { sides, cube });
    if sides.list.name(rule) == sides.table.name(place) {
        return claims.push(&[Step::InRule(rule)]);
    }
    let entry = sides.table.index.first(&cube, place, &Any);
    if entry < place {
        return claims.push(&[Step::InEntry(entry)]);
    }
    if cutting.covers(sides, &Task::of_entry(sides, place, rule, FIRST))? {
        claims.push(cutting.steps())
    } else {
        claims.push(&[Step::InRule(rule)])
    }
}

/// Claims the next rule.
pub(crate) fn claim_rule(
    sides: &Sides,
    place: u32,
    cutting: &mut Cutting,
    claims: &mut Claims,
) -> Result<(), Memory> {
    let cube = sides.list.word(place);
    let entry = sides.table.index.first(&cube, sides.table.last(), &Any);
    if sides.table.name(entry) == sides.list.name(place) {
        return claims.push(&[Step::InEntry(entry)]);
    }
    let task = Task::of_rule(sides, place, entry, FIRST);
    let rule = sides
        .list
        .index
        .first(&cube, place, &HoldsRule { sides, place });
    let is_covered = if rule < place {
        cutting.covers_by(sides, &task, Candidate::at(sides, Place::Rule(rule)))?
    } else {
        cutting.covers(sides, &task)?
    };
    if is_covered {
        claims.push(cutting.steps())
    } else {
        claims.push(&[Step::InEntry(entry)])
    }
}
