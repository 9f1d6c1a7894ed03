//! The shape of a rule: its entries, or fewer and wider rows.

use crate::sides::{Side, parts};
use crate::strips::Cost;
use entry_index::{SearchEntry, field};
use razor_limits::Memory;
use std::alloc::Global;
use ternary_words::{Entry, Word};
use word_cover::meet;

/// A rule by the prefixes of its two ports, and what its entries have besides.
#[derive(Drop)]
pub(crate) struct Shape {
    alloc: Global,
    bases: Vec<Word>,
    source: Side,
    destination: Side,
    decision: u32,
}

/// Which ports are widened to the one prefix that holds all of the rule's.
#[derive(Clone, Copy)]
pub(crate) struct Form {
    source: bool,
    destination: bool,
}

impl Shape {
    /// The shape of a rule with these entries.
    pub fn of(alloc: Global, entries: &[Entry]) -> Result<Shape, Memory> {
        let mut cubes = Vec::with_capacity(alloc, entries.len())?;
        for entry in entries {
            cubes.push(entry.word)?;
        }
        Ok(Shape {
            alloc,
            bases: parts(alloc, &cubes, !(field(2) | field(3)))?,
            source: Side::of(alloc, &cubes, 2)?,
            destination: Side::of(alloc, &cubes, 3)?,
            decision: entries.first().map_or(0, |entry| entry.decision),
        })
    }

    /// The form that costs fewest rows, where strips cost so much.
    pub fn form(&self, costs: &[Cost]) -> Form {
        let (source, destination) = (share(&self.source, costs), share(&self.destination, costs));
        let bases = self.bases.len();
        let sources = bases.saturating_mul(self.source.prefixes.len());
        let destinations = bases.saturating_mul(self.destination.prefixes.len());
        let all = sources.saturating_mul(self.destination.prefixes.len());
        let both = source.saturating_add(destination).saturating_add(bases);
        let first = source.saturating_add(destinations);
        let second = destination.saturating_add(sources);
        let least = both.min(first).min(second).min(all);
        Form {
            source: least == both || least == first,
            destination: least == both || least != first && least == second,
        }
    }

    /// The rows of the rule in this form.
    pub fn rows(&self, form: Form) -> Result<Vec<SearchEntry>, Memory> {
        let sources = self.source.cubes(self.alloc, form.source)?;
        let destinations = self.destination.cubes(self.alloc, form.destination)?;
        let mut rows = Vec::new(self.alloc);
        for base in &self.bases {
            for source in &sources {
                for destination in &destinations {
                    rows.push(SearchEntry {
                        word: meet(&meet(base, source), destination),
                        decision: self.decision,
                        is_fixed: false,
                    })?;
                }
            }
        }
        Ok(rows)
    }

    /// The strips that the rows in this form hold too much.
    pub fn strips(&self, form: Form) -> Result<Vec<Word>, Memory> {
        let mut strips = Vec::new(self.alloc);
        if form.source {
            push_outside(&mut strips, &self.source)?;
        }
        if form.destination {
            push_outside(&mut strips, &self.destination)?;
        }
        Ok(strips)
    }

    /// What the rule holds for any port between its least and its greatest.
    pub fn hulls(&self) -> Result<Vec<Word>, Memory> {
        let mut hulls = Vec::new(self.alloc);
        for base in &self.bases {
            hulls.push(meet(&meet(base, &self.source.hull), &self.destination.hull))?;
        }
        Ok(hulls)
    }
}

/// Puts what the side's widest prefix holds besides behind the others.
fn push_outside(strips: &mut Vec<Word>, side: &Side) -> Result<(), Memory> {
    if let Some(outside) = &side.outside {
        strips.extend_from_slice(outside)?;
    }
    Ok(())
}

/// What it costs to widen the side, where strips cost so much.
fn share(side: &Side, costs: &[Cost]) -> usize {
    let Some(outside) = &side.outside else {
        return usize::MAX;
    };
    let mut share = 0usize;
    for cost in costs {
        if outside.contains(&cost.strip) {
            share = share.saturating_add(cost.rows);
        }
    }
    share
}
