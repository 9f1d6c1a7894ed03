//! The claims of entries and rules, and the pairs that they leave open.

use crate::claiming::{claim_entry, claim_rule};
use crate::claims::{Claims, Named};
use crate::cutting::Cutting;
use crate::effort::{FIRST, THEN};
use crate::open_pairs::{Claimed, keep_open, open_pairs};
use crate::sides::Sides;
use crate::tightening::tighten;
use agreement_check::Pair;
use razor_limits::Memory;
use std::alloc::Global;

/// What is claimed of the entries and of the rules, and which pairs are open.
#[derive(Drop)]
pub(crate) struct Search {
    pub entries: Claims,
    pub rules: Claims,
    /// By rising entries, and for one entry by rising rules.
    pub pairs: Vec<Pair>,
    /// Whether these are all open pairs: they may be too many to be found.
    pub has_all: bool,
    pub cutting: Cutting,
}

impl Search {
    /// The claims of these sides, where about so many words may be looked at.
    pub fn of(alloc: Global, sides: &Sides, words: u64) -> Result<Search, Memory> {
        let mut search = Search {
            entries: Claims::new(alloc, Named::Rules),
            rules: Claims::new(alloc, Named::Entries),
            pairs: Vec::new(alloc),
            has_all: false,
            cutting: Cutting::new(alloc, words),
        };
        search.claim(sides)?;
        search.find_pairs(alloc, sides)?;
        search.tighten(alloc, sides)?;
        Ok(search)
    }

    /// Claims each entry and each rule.
    fn claim(&mut self, sides: &Sides) -> Result<(), Memory> {
        for place in 0..sides.table.len() {
            claim_entry(sides, place, &mut self.cutting, &mut self.entries)?;
        }
        for place in 0..sides.list.len() {
            claim_rule(sides, place, &mut self.cutting, &mut self.rules)?;
        }
        Ok(())
    }

    /// Finds the open pairs.
    fn find_pairs(&mut self, alloc: Global, sides: &Sides) -> Result<(), Memory> {
        let claimed = Claimed {
            entries: &self.entries,
            rules: &self.rules,
        };
        if let Some(pairs) = open_pairs(alloc, sides, claimed, &mut self.cutting.left)? {
            self.pairs = pairs;
            self.has_all = true;
        }
        Ok(())
    }

    /// Makes claims reach less far: first those of rules, each of which leaves pairs with many entries open.
    fn tighten(&mut self, alloc: Global, sides: &Sides) -> Result<(), Memory> {
        self.tighten_rules(alloc, sides, FIRST)?;
        self.tighten_entries(alloc, sides, FIRST)?;
        self.tighten_rules(alloc, sides, THEN)
    }

    /// Makes claims of rules reach less far, with so many candidates at once.
    fn tighten_rules(&mut self, alloc: Global, sides: &Sides, most: usize) -> Result<(), Memory> {
        tighten(
            alloc,
            sides,
            &self.pairs,
            most,
            &mut self.cutting,
            &mut self.rules,
        )?;
        keep_open(&mut self.pairs, &self.entries, &self.rules);
        Ok(())
    }

    /// Makes claims of entries reach less far.
    fn tighten_entries(&mut self, alloc: Global, sides: &Sides, most: usize) -> Result<(), Memory> {
        tighten(
            alloc,
            sides,
            &self.pairs,
            most,
            &mut self.cutting,
            &mut self.entries,
        )?;
        keep_open(&mut self.pairs, &self.entries, &self.rules);
        Ok(())
    }
}
