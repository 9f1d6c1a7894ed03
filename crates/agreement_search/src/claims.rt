//! The claims of one side: what covers each of its words, and how far that reaches into the other side.

use crate::candidates::Place;
use crate::covers::Covers;
use agreement_check::Step;
use razor_limits::Memory;
use std::alloc::Global;

/// How many rules of the list, up to the last one that is named, or entries of the table.
#[derive(Clone, Copy, PartialEq, Eq)]
pub(crate) enum Named {
    Rules,
    Entries,
}

impl Named {
    /// The place of one that is named.
    pub fn at(self, place: u32) -> Place {
        match self {
            Named::Rules => Place::Rule(place),
            Named::Entries => Place::Entry(place),
        }
    }

    /// Behind the last one that the steps name; 0 where they name none.
    pub fn reach(self, steps: &[Step]) -> u32 {
        let mut reach = 0;
        for step in steps {
            let place = match step {
                Step::InRule(place) if self == Named::Rules => *place,
                Step::InEntry(place) if self == Named::Entries => *place,
                _ => continue,
            };
            reach = reach.max(place.saturating_add(1));
        }
        reach
    }
}

/// The covers of all rules, or of all entries, and of the open one behind them.
#[derive(Drop)]
pub(crate) struct Claims {
    covers: Covers,
    /// What of the other side the covers name.
    named: Named,
    /// For each cover the place behind the last one of the other side that it names.
    reach: Vec<u32>,
}

impl Claims {
    /// No claim.
    pub fn new(alloc: Global, named: Named) -> Claims {
        Claims {
            covers: Covers::new(alloc),
            named,
            reach: Vec::new(alloc),
        }
    }

    /// What the covers name of the other side.
    pub fn named(&self) -> Named {
        self.named
    }

    /// How far the cover reaches.
    #[inline]
    pub fn reach(&self, place: u32) -> u32 {
        self.reach.get(place as usize).copied().unwrap_or(0)
    }

    /// The covers alone.
    pub fn into_covers(self) -> Covers {
        self.covers
    }

    /// Claims the next one.
    pub fn push(&mut self, steps: &[Step]) -> Result<(), Memory> {
        self.covers.push(steps)?;
        self.reach.push(self.named.reach(steps))?;
        Ok(())
    }

    /// Claims one anew.
    pub fn put(&mut self, place: u32, steps: &[Step]) -> Result<(), Memory> {
        self.covers.put(place as usize, steps)?;
        if let Some(reach) = self.reach.get_mut(place as usize) {
            *reach = self.named.reach(steps);
        }
        Ok(())
    }
}
