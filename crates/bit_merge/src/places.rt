//! The words of a run at their places, with the least place of each word.

use razor_limits::Memory;
use std::alloc::Global;
use std::collections::HashMap;
use std::marker::Model;
use ternary_words::{Entry, Word};

/// The words of a run at their places. A place whose word was taken is empty.
///
/// Each word has its least place in a map, and each place the next one with the same word.
#[derive(Drop)]
pub(crate) struct Places {
    words: Vec<Option<Word>>,
    least: HashMap<Word, usize>,
    next: Vec<Option<usize>>,
}

impl Model for Places {
    ghost use Rattle.std.specs.HashMap.{get};
    ghost use Rattle.bit_merge.specs.Slots.{Slots};
    ghost use Rattle.bit_merge.specs.Index.{IsIndexed, same_word};

    ghost Value = { Slots };

    ghost view = { λ p. p.words.items };

    ghost invariant = { λ p. IsIndexed p.words.items (get same_word p.least) p.next.items };
}

impl Places {
    ghost use Rattle.std.specs.Prelude.{◌≡◌, ◌<◌, ◌≤◌, ℕ, List, Some, None, IfOk, OnOk, length, map, replicate, slice_set};
    ghost use Rattle.ternary_words.specs.declared.word.Word.{Word as SeenWord};
    ghost use Rattle.bit_merge.specs.Slots.{IsFirstOfItsWord, IsLeast, IsWord, at, numbered_entries};

    /// So many empty places.
    fn empty(alloc: Global, count: usize) -> Result<Places, Memory>
        ensures { IfOk result (λ places. places ≡ replicate count None) }
    {
        Ok(Places {
            words: vec![in alloc; None; count]?,
            least: HashMap::with_capacity(alloc, count)?,
            next: vec![in alloc; None; count]?,
        })
    }

    /// The words of the entries.
    pub fn of(alloc: Global, run: &[Entry]) -> Result<Places, Memory>
        ensures { IfOk result (λ places. places ≡ map (λ e. Some e.word) run.now) }
    {
        let mut places = Places::empty(alloc, run.len())?;
        let mut place = run.len();
        while place > 0 {
            place -= 1;
            places.put(place, run[place].word)?;
        }
        Ok(places)
    }

    /// How many places there are.
    pub fn count(&self) -> usize
        ensures { result ≡ length self.now }
    {
        self.words.len()
    }

    /// The entries of the words that are left, which all have this decision.
    pub fn entries(&self, alloc: Global, decision: u32) -> Result<Vec<Entry>, Memory>
        ensures { IfOk result (λ entries. entries.items ≡ numbered_entries decision self.now) }
    {
        let mut entries = Vec::new(alloc);
        for word in &self.words {
            push_entry(&mut entries, word, decision)?;
        }
        Ok(entries)
    }

    /// Takes the word at the place, if one stands there, which must be the first of its like.
    pub fn take(&mut self, place: usize) -> Result<Option<Word>, Memory>
        requires within { place < length self.old }
        requires first { IsFirstOfItsWord self.old place }
        ensures word { IfOk result (λ word. word ≡ at self.old place) }
        ensures taken { OnOk result (self.new ≡ slice_set self.old place None) }
    {
        let Some(word) = self.words[place] else {
            return Ok(None);
        };
        lead_to(&mut self.least, word, self.next[place])?;
        self.words[place] = None;
        Ok(Some(word))
    }

    /// Puts the word at an empty place, in front of all its like.
    pub fn put(&mut self, place: usize, word: Word) -> Result<(), Memory>
        requires within { place < length self.old }
        requires empty { at self.old place ≡ None }
        requires front { (k : ℕ) (b : SeenWord) → at self.old k ≡ Some b → IsWord word.mask word.value b → place < k }
        ensures { OnOk result (self.new ≡ slice_set self.old place (Some word)) }
    {
        let behind = self.least.insert(word, place)?;
        self.next[place] = behind;
        self.words[place] = Some(word);
        Ok(())
    }

    /// The least place of the word, if it stands somewhere.
    pub fn least_place(&self, word: &Word) -> Option<usize>
        ensures { IsLeast self.now (IsWord word.now.mask word.now.value) result }
    {
        self.least.get(word).copied()
    }
}

ghost use Rattle.std.specs.Prelude.{◌≡◌, ◌++◌, ◌∷◌, [], OnOk, OnErr, cond};
ghost use Rattle.std.specs.HashMap.{get, IsUnchanged};
ghost use Rattle.ternary_words.specs.declared.word.Word.{Word as LedWord};
ghost use Rattle.bit_merge.specs.Index.{same_word};
ghost use Rattle.bit_merge.specs.Slots.{numbered_entries};

/// Has the word lead to the place, or nowhere.
fn lead_to(least: &mut HashMap<Word, usize>, word: Word, place: Option<usize>) -> Result<(), Memory>
    ensures leads { OnOk result ((q : LedWord) → get same_word least.new q ≡ cond (same_word word q) place (get same_word least.old q)) }
    ensures err { OnErr result (IsUnchanged least.old least.new) }
{
    match place {
        Some(place) => {
            least.insert(word, place)?;
        }
        None => {
            least.remove(&word);
        }
    }
    Ok(())
}

/// Pushes the entry of a word, where there is one.
fn push_entry(entries: &mut Vec<Entry>, slot: &Option<Word>, decision: u32) -> Result<(), Memory>
    ensures { OnOk result (entries.new.items ≡ entries.old.items ++ numbered_entries decision (slot.now ∷ [])) }
{
    if let Some(word) = slot {
        entries.push(Entry {
            word: *word,
            decision,
        })?;
    }
    Ok(())
}
