//! A list and a table as they are searched: words in order, and what each decides.
//!
//! A rule is searched by the word round it, and by its ports where these are others than the word's. Behind the last
//! rule and the last entry stands an open word, which every header matches and which decides nothing.

use crate::index::Index;
use crate::ports::asks_for_more;
use agreement_check::word_of;
use field_boxes::{Decisions, Rule, RuleList};
use razor_limits::Memory;
use std::alloc::Global;
use ternary_words::{Table, Word};

/// One side of the comparison.
#[derive(Drop)]
pub(crate) struct Side {
    words: Vec<Word>,
    /// What each word decides: 0 for nothing, and of both sides equal numbers for equal names.
    names: Vec<u32>,
    pub index: Index,
}

impl Side {
    /// The side of these words with an open one behind them.
    fn new(alloc: Global, mut words: Vec<Word>, mut names: Vec<u32>) -> Result<Side, Memory> {
        words.push(open_word())?;
        names.push(0)?;
        let index = Index::new(alloc, &words)?;
        Ok(Side {
            words,
            names,
            index,
        })
    }

    /// How many words there are, with the open one.
    #[inline]
    pub fn len(&self) -> u32 {
        (self.words.len() % (1 << 32)) as u32
    }

    /// The place of the open word.
    #[inline]
    pub fn last(&self) -> u32 {
        self.len().saturating_sub(1)
    }

    /// The word at the place; past the last one an open one.
    #[inline]
    pub fn word(&self, place: u32) -> Word {
        match self.words.get(place as usize) {
            Some(word) => *word,
            None => open_word(),
        }
    }

    /// What the word at the place decides.
    #[inline]
    pub fn name(&self, place: u32) -> u32 {
        self.names.get(place as usize).copied().unwrap_or(0)
    }
}

/// A list and a table.
#[derive(Drop)]
pub(crate) struct Sides<'a> {
    pub rules: &'a [Rule],
    /// Whether a rule's ports are others than those of its word.
    are_ported: Vec<bool>,
    pub list: Side,
    pub table: Side,
}

impl<'a> Sides<'a> {
    /// The sides of this list and this table.
    pub fn new(alloc: Global, list: &'a RuleList, table: &Table) -> Result<Sides<'a>, Memory> {
        let rules = list.rules.as_slice();
        let mut words = Vec::with_capacity(alloc, rules.len())?;
        let mut names = Vec::with_capacity(alloc, rules.len())?;
        let mut are_ported = Vec::with_capacity(alloc, rules.len())?;
        for rule in rules {
            let word = word_of(rule);
            are_ported.push(asks_for_more(rule, &word))?;
            words.push(word)?;
            names.push(rule.decision)?;
        }
        Ok(Sides {
            rules,
            are_ported,
            list: Side::new(alloc, words, names)?,
            table: side_of_table(alloc, table, &list.names)?,
        })
    }

    /// Whether the ports of the rule at the place are others than those of its word.
    #[inline]
    pub fn is_ported(&self, place: u32) -> bool {
        self.are_ported
            .get(place as usize)
            .copied()
            .unwrap_or(false)
    }

    /// The rule at the place, if they are.
    #[inline]
    pub fn ported(&self, place: u32) -> Option<&'a Rule> {
        if self.is_ported(place) {
            self.rules.get(place as usize)
        } else {
            None
        }
    }
}

/// The word that every header matches.
#[inline]
fn open_word() -> Word {
    Word { value: 0, mask: 0 }
}

/// The side of a table, with the numbers that the names have among the list's.
fn side_of_table(alloc: Global, table: &Table, names: &Decisions) -> Result<Side, Memory> {
    let numbers = numbers_of(alloc, &table.names, names)?;
    let mut words = Vec::with_capacity(alloc, table.entries.len())?;
    let mut decided = Vec::with_capacity(alloc, table.entries.len())?;
    for entry in &table.entries {
        let number = numbers.get(entry.decision as usize);
        words.push(entry.word)?;
        decided.push(number.copied().unwrap_or(0))?;
    }
    Side::new(alloc, words, decided)
}

/// For each number of these names the one that the name has among the others, or one behind all of them.
fn numbers_of(alloc: Global, names: &Decisions, others: &Decisions) -> Result<Vec<u32>, Memory> {
    let mut numbers = Vec::new(alloc);
    for number in 0..names.count().saturating_add(1) {
        let new = others.count().saturating_add(number);
        numbers.push(others.number(names.name(number)).unwrap_or(new))?;
    }
    Ok(numbers)
}
