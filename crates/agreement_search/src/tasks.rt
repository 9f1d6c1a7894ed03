//! What is to be covered, and by what.

use crate::candidates::{Candidate, Place};
use crate::effort::OF_PAIR;
use crate::sides::Sides;
use agreement_check::Pair;
use ternary_words::Word;
use word_cover::meet;

/// Which kind a cover names rather, where a cube lies in both.
#[derive(Clone, Copy, PartialEq, Eq)]
pub(crate) enum Rather {
    Entries,
    Rules,
}

/// A cube that is to be covered.
#[derive(Clone, Copy)]
pub(crate) struct Task {
    pub cube: Word,
    /// The rule whose headers alone are to be covered.
    pub of: Option<Candidate>,
    /// The cover names rules and entries before these places.
    pub rules: u32,
    pub entries: u32,
    pub rather: Rather,
    /// How many candidates are tried at once.
    pub at_once: usize,
    /// Whether the others are tried where these leave a part open.
    pub goes_on: bool,
}

impl Task {
    /// The entry, by rules before this place and the entries before it.
    pub fn of_entry(sides: &Sides, place: u32, rules: u32, at_once: usize) -> Task {
        Task {
            cube: sides.table.word(place),
            of: None,
            rules,
            entries: place,
            rather: Rather::Entries,
            at_once,
            goes_on: false,
        }
    }

    /// The rule, by the rules before it and entries before this place.
    pub fn of_rule(sides: &Sides, place: u32, entries: u32, at_once: usize) -> Task {
        Task {
            cube: sides.list.word(place),
            of: Some(Candidate::at(sides, Place::Rule(place))),
            rules: place,
            entries,
            rather: Rather::Rules,
            at_once,
            goes_on: false,
        }
    }

    /// What the words of both have in common, as far as the rule has it.
    pub fn of_pair(sides: &Sides, pair: Pair) -> Task {
        Task {
            cube: meet(&sides.list.word(pair.rule), &sides.table.word(pair.entry)),
            of: Some(Candidate::at(sides, Place::Rule(pair.rule))),
            rules: pair.rule,
            entries: pair.entry,
            rather: Rather::Entries,
            at_once: OF_PAIR,
            goes_on: true,
        }
    }
}
