//! The rules and entries that may cover a cube.

use crate::ports::{asked_of_ports, pairs_of_ports, ports_meet};
use crate::sides::Sides;
use agreement_check::Step;
use field_boxes::Rule;
use ternary_words::Word;
use word_cover::meets;

/// The bits of a header.
const ALL: u128 = (1 << 104) - 1;

/// The bits of its ports.
const PORTS: u128 = 0xffff_ffff << 8;

/// The place of a rule or of an entry.
#[derive(Clone, Copy, Debug, PartialEq, Eq)]
pub(crate) enum Place {
    Rule(u32),
    Entry(u32),
}

impl Place {
    /// Its number.
    #[inline]
    pub fn number(self) -> u32 {
        match self {
            Place::Rule(number) | Place::Entry(number) => number,
        }
    }

    /// The place with another number.
    #[inline]
    pub fn with(self, number: u32) -> Place {
        match self {
            Place::Rule(_) => Place::Rule(number),
            Place::Entry(_) => Place::Entry(number),
        }
    }

    /// The step that says that a cube lies there.
    pub fn step(self) -> Step {
        match self {
            Place::Rule(number) => Step::InRule(number),
            Place::Entry(number) => Step::InEntry(number),
        }
    }
}

/// A rule or an entry that may cover a cube.
#[derive(Clone, Copy)]
pub(crate) struct Candidate {
    pub word: Word,
    pub place: Place,
    /// Whether it is a rule whose ports are others than those of the word.
    is_ported: bool,
    /// About how much of a cube it has.
    pub share: u32,
}

impl Candidate {
    /// The word at the place. Of a rule whose ports are others than the word's, its ports are to be added.
    #[inline]
    pub fn new(word: Word, place: Place) -> Candidate {
        Candidate {
            word,
            place,
            is_ported: false,
            share: 0,
        }
    }

    /// What stands at the place.
    #[inline]
    pub fn at(sides: &Sides, place: Place) -> Candidate {
        let word = match place {
            Place::Rule(number) => sides.list.word(number),
            Place::Entry(number) => sides.table.word(number),
        };
        let mut candidate = Candidate::new(word, place);
        candidate.add_ports(sides);
        candidate
    }

    /// Adds the ports of a rule.
    #[inline]
    pub fn add_ports(&mut self, sides: &Sides) {
        if let Place::Rule(number) = self.place {
            self.is_ported = sides.is_ported(number);
        }
    }

    /// The rule, where its ports are others than those of the word.
    #[inline]
    fn ported<'a>(&self, sides: &Sides<'a>) -> Option<&'a Rule> {
        match self.place {
            Place::Rule(number) if self.is_ported => sides.rules.get(number as usize),
            _ => None,
        }
    }

    /// Whether the rule's ports are others than the word's and none of them is one of the cube's.
    #[inline]
    pub fn misses_ports(&self, sides: &Sides, cube: &Word) -> bool {
        match self.ported(sides) {
            Some(rule) => !ports_meet(rule, cube),
            None => false,
        }
    }

    /// Whether some header of the box round the cube may match it.
    #[inline]
    pub fn meets(&self, sides: &Sides, cube: &Word) -> bool {
        meets(&self.word, cube) && !self.misses_ports(sides, cube)
    }

    /// The bits that it asks for and the cube leaves open; of ports of which it hasn't all, the highest open one. None where
    /// it has the whole cube.
    #[inline]
    pub fn asked(&self, sides: &Sides, cube: &Word) -> u128 {
        let asked = self.word.mask & !cube.mask;
        match self.ported(sides) {
            Some(rule) => asked | asked_of_ports(rule, cube),
            None => asked,
        }
    }

    /// Reckons how much of the cube it has: eight times the binary logarithm of the number of headers, about.
    pub fn reckon(&mut self, sides: &Sides, cube: &Word) {
        let free = ALL & !(self.word.mask | cube.mask);
        self.share = match self.ported(sides) {
            Some(rule) => (free & !PORTS)
                .count_ones()
                .saturating_mul(8)
                .saturating_add(eighths(pairs_of_ports(rule, cube))),
            None => free.count_ones().saturating_mul(8),
        };
    }
}

/// Eight times the binary logarithm of a number, about.
fn eighths(number: u128) -> u32 {
    let leading = number.leading_zeros().min(127);
    let behind = number << leading;
    (127 - leading)
        .saturating_mul(8)
        .saturating_add(((behind >> 124) % 8) as u32)
}
