//! Parts of a table, each for all words that agree in some bits.
//!
//! A word is compared with the entries of its part alone: those that meet what these words have in common.

ghost use Rattle.std.specs.Prelude.{◌≡◌, ◌∷◌, [], List, All, IfOk, IfSome, OnOk};
ghost use Rattle.ternary_words.specs.declared.entry.Entry.{Entry as SeenEntry};
ghost use Rattle.table_steps.specs.Free.{words_of};
ghost use Rattle.table_steps.specs.Answering.{AnswerBehind, IsPartOf};
ghost use Rattle.word_cover.specs.Covers.{Covers};

use crate::answering::{Shortlist, answering};
use crate::parting::parting_bits;
use razor_limits::Memory;
use std::alloc::Global;
use ternary_words::{Entry, Word};
use word_cover::inside;

/// Places for numbers of parts.
const SLOTS: usize = 1024;

/// In how many parts an entry may stand, by the mean.
const TIMES: usize = 16;

/// What may answer the headers of a word.
#[derive(Drop)]
pub(crate) struct Part {
    pub(crate) word: Word,
    pub(crate) list: Shortlist,
}

impl Part {
    /// The entries that stand before this place of the table, where they have their places beside them.
    pub(crate) fn before(&self, place: usize) -> &[Entry] {
        let count = self.list.holders.partition_point(|other| *other < place);
        self.list.entries.get(..count).unwrap_or(&[])
    }

    /// The entries that stand behind this place of the table, where they have their places beside them.
    pub(crate) fn behind(&self, place: usize) -> &[Entry] {
        let count = self.list.holders.partition_point(|other| *other <= place);
        self.list.entries.get(count..).unwrap_or(&[])
    }
}

/// The parts of a table that were asked for.
#[derive(Drop)]
pub(crate) struct Parts {
    alloc: Global,
    /// Words that agree in these bits have one part.
    bits: u128,
    parts: Vec<Part>,
    /// Numbers of parts, each where its word says.
    numbers: Vec<usize>,
    /// How many more entries parts may have together.
    left: usize,
}

impl Parts {
    /// No part of the table.
    pub(crate) fn new(alloc: Global, table: &[Entry]) -> Result<Parts, Memory>
        ensures { IfOk result (λ made. All (IsPartOf table.now) made.parts.items) }
    {
        Ok(Parts {
            alloc,
            bits: parting_bits(alloc, table)?,
            parts: Vec::new(alloc),
            numbers: vec![in alloc; 0; SLOTS]?,
            left: table.len().saturating_mul(TIMES),
        })
    }

    /// The entries of the table that may answer a header of the word that none of those before it matches.
    ///
    /// `holders` says for the first entries of the table at which place before it the entry stands that may hold each.
    pub(crate) fn answering(
        &mut self,
        before: &[Entry],
        table: &[Entry],
        holders: &[usize],
        word: &Word,
    ) -> Result<Shortlist, Memory>
        requires { All (IsPartOf table.now) self.old.parts.items }
        ensures parts { OnOk result (All (IsPartOf table.now) self.new.parts.items) }
        ensures answer { IfOk result (λ some. AnswerBehind (words_of before.now) some.entries.items table.now word.now) }
    {
        let number = self.number(table, holders, word)?;
        match self.part(number, word) {
            Some(part) => answering(
                self.alloc,
                before,
                &part.list.entries,
                &part.list.holders,
                word,
            ),
            None => answering(self.alloc, before, table, holders, word),
        }
    }

    /// The place of the first entry of the table that holds the word, or how many there are. Nothing is promised of it.
    ///
    /// `places` are those of the table's entries.
    pub(crate) fn holder(
        &mut self,
        table: &[Entry],
        places: &[usize],
        word: &Word,
    ) -> Result<usize, Memory> {
        let number = self.number(table, places, word)?;
        let holder = match self.part(number, word) {
            Some(part) => first_holding(&part.list.entries, &part.list.holders, word),
            None => first_holding(table, places, word),
        };
        Ok(holder.unwrap_or(table.len()))
    }

    /// The part with the number, if it is one for the word.
    pub(crate) fn part(&self, number: usize, word: &Word) -> Option<&Part>
        ensures among { IfSome result (λ part. (table : List SeenEntry) → All (IsPartOf table) self.now.parts.items → IsPartOf table part.now) }
        ensures holds { IfSome result (λ part. Covers (part.now.word ∷ []) word.now) }
    {
        let parts = self.parts.as_slice();
        if number >= parts.len() {
            return None;
        }
        let part = &parts[number];
        if inside(word, &part.word) {
            Some(part)
        } else {
            None
        }
    }

    /// The number of the word's part, which is made if there is none; or that of no part.
    pub(crate) fn number(
        &mut self,
        table: &[Entry],
        holders: &[usize],
        word: &Word,
    ) -> Result<usize, Memory>
        ensures { All (IsPartOf table.now) self.old.parts.items → OnOk result (All (IsPartOf table.now) self.new.parts.items) }
    {
        let common = agreeing(word, self.bits);
        if let Some(number) = self.known(&common) {
            return Ok(number);
        }
        if common.mask == 0 || self.left == 0 {
            return Ok(usize::MAX);
        }
        self.make(table, holders, common)
    }

    /// The number of the part of this very word, if there is one.
    fn known(&self, word: &Word) -> Option<usize> {
        let number = self.numbers.get(slot_of(word)).copied()?;
        let part = self.parts.get(number)?;
        if part.word == *word {
            Some(number)
        } else {
            None
        }
    }

    /// Makes the part of this very word, and says its number.
    fn make(&mut self, table: &[Entry], holders: &[usize], word: Word) -> Result<usize, Memory>
        ensures { All (IsPartOf table.now) self.old.parts.items → OnOk result (All (IsPartOf table.now) self.new.parts.items) }
    {
        let list = answering(self.alloc, &[], table, holders, &word)?;
        let number = self.parts.len();
        self.note(&word, number, list.entries.len().max(table.len() / 64));
        self.parts.push(Part { word, list })?;
        Ok(number)
    }

    /// Notes the number of the part of this word, and how many entries are put into it.
    fn note(&mut self, word: &Word, number: usize, entries: usize)
        ensures { self.new.parts ≡ self.old.parts }
    {
        self.left = self.left.saturating_sub(entries);
        if let Some(known) = self.numbers.get_mut(slot_of(word)) {
            *known = number;
        }
    }
}

/// The place that stands beside the first entry that holds the word.
fn first_holding(entries: &[Entry], places: &[usize], word: &Word) -> Option<usize> {
    let first = entries.iter().position(|entry| inside(word, &entry.word))?;
    places.get(first).copied()
}

/// What the words have in common that agree with this one in the bits.
fn agreeing(word: &Word, bits: u128) -> Word {
    let mask = (word.mask & bits) % (1 << 104);
    Word {
        value: word.value & mask,
        mask,
    }
}

/// Where the number of the word's part stands.
fn slot_of(word: &Word) -> usize {
    let both = word.value ^ word.mask.rotate_left(64);
    let low = (both % (1 << 64)) as u64;
    let high = ((both >> 64) % (1 << 64)) as u64;
    let mixed = low.wrapping_mul(0x9e37_79b9_7f4a_7c15) ^ high.wrapping_mul(0xc2b2_ae3d_27d4_eb4f);
    (mixed.wrapping_mul(0x517c_c1b7_2722_0a95) >> 54) as usize % SLOTS
}
