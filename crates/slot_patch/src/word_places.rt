//! Where each word stands in a table.
use razor_limits::Memory;
use std::alloc::Global;
use std::collections::HashMap;
use ternary_words::{Entry, Word};

/// The first place of each word in a table, and for each place the next one that has the same word.
#[derive(Drop)]
pub(crate) struct WordPlaces {
    first: HashMap<Word, usize>,
    next: Vec<Option<usize>>,
}

impl WordPlaces {
    ghost use Rattle.std.specs.Prelude.{◌≡◌, ◌<◌, ℕ, suc, List, Some, None, length, slice_get, slice_index_or, IfOk, OnOk};
    ghost use Rattle.ternary_words.specs.declared.entry.Entry.{Entry as SeenEntry};
    ghost use Rattle.slot_patch.specs.Finding.{ArePlaces, IsNext};

    /// The places of the table's words.
    pub(crate) fn of(alloc: Global, entries: &[Entry]) -> Result<WordPlaces, Memory>
        ensures { IfOk result (ArePlaces entries.now 0) }
    {
        let mut places = WordPlaces::none(alloc, entries.len())?;
        for done in 0..entries.len() {
            let place = entries.len() - 1 - done;
            places.put(place, &entries[place].word)?;
        }
        Ok(places)
    }

    /// No place is known of a table with so many entries.
    fn none(alloc: Global, count: usize) -> Result<WordPlaces, Memory>
        ensures { IfOk result (λ places. (entries : List SeenEntry) → length entries ≡ count → ArePlaces entries count places) }
    {
        Ok(WordPlaces {
            first: HashMap::with_capacity(alloc, count)?,
            next: vec![in alloc; None; count]?,
        })
    }

    /// Puts the place of a word in front of those that are known.
    fn put(&mut self, place: usize, word: &Word) -> Result<(), Memory>
        requires { place < length self.old.next.items }
        ensures { (entries : List SeenEntry) (entry : SeenEntry) → slice_get entries place ≡ Some entry → entry.word ≡ word.now →
            ArePlaces entries (suc place) self.old → OnOk result (ArePlaces entries place self.new) }
    {
        let behind = self.first.insert(*word, place)?;
        self.next[place] = behind;
        Ok(())
    }

    /// The first place of the word.
    pub(crate) fn first(&self, word: &Word) -> Option<usize>
        ensures { (entries : List SeenEntry) → ArePlaces entries 0 self.now → IsNext entries 0 word.now.mask word.now.value result }
    {
        self.first.get(word).copied()
    }

    /// The next place behind this one that has the same word.
    pub(crate) fn next(&self, place: usize) -> Option<usize>
        requires { place < length self.now.next.items }
        ensures { result ≡ slice_index_or self.now.next.items place None }
    {
        self.next[place]
    }
}
