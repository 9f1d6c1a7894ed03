//! What is kept of a list that was shortened.

use crate::differences::Differences;
use crate::taken::Taken;
use field_boxes::Rule;
use razor_limits::Memory;
use rule_expansion::expanded_entries;
use std::alloc::Global;
use table_search::{Room, in_old_order, repaired};
use ternary_words::{Entry, Word};

/// Rules that are edited at once at most, on either side.
const MOST_EDITED: usize = 16;

/// Words of edited rules at most.
const MOST_WORDS: usize = 2000;

/// Repairs one after another at most, before a table is made anew.
const MOST_REPAIRS: u32 = 32;

/// A word of so many bits, or of fewer, is broad.
const BROAD: u32 = 16;

/// The rules of a list, the entries of their table, and the room between these in the memory. Nothing is promised of it.
#[derive(Drop)]
pub(crate) struct Known {
    alloc: Global,
    rules: Vec<Rule>,
    entries: Vec<Entry>,
    room: Room,
    /// A table is made anew where a repaired one has more entries than this, or no repair is left.
    most: usize,
    left: u32,
    /// Whether a table was made anew beside a repair of this one.
    has_tried: bool,
}

impl Known {
    /// Of rules whose table was made anew.
    pub fn new(alloc: Global, rules: &[Rule], entries: &[Entry]) -> Result<Known, Memory> {
        Ok(Known {
            alloc,
            rules: Vec::from_slice(alloc, rules)?,
            entries: Vec::from_slice(alloc, entries)?,
            room: Room::unknown(alloc),
            most: grown(entries.len()),
            left: MOST_REPAIRS,
            has_tried: false,
        })
    }

    /// Of rules whose table is this one, repaired.
    pub fn followed(&self, rules: &[Rule], entries: &[Entry]) -> Result<Known, Memory> {
        let mut followed = Known::new(self.alloc, rules, entries)?;
        followed.most = self.most;
        followed.left = self.left.saturating_sub(1);
        Ok(followed)
    }

    /// The entries take these slots, if there is one for each.
    pub fn stand(&mut self, taken: &Taken) -> Result<(), Memory> {
        self.room = if taken.slots.len() == self.entries.len() {
            Room::between(self.alloc, &taken.slots, taken.count)?
        } else {
            Room::unknown(self.alloc)
        };
        Ok(())
    }

    /// Where a table of these rules is to be made anew beside a repaired one of so many entries, below how many it is worth it:
    /// with fewer by more than a hundredth. That is once after a broad edit, after as many repairs, and where tables have grown.
    pub fn due(&mut self, rules: &[Rule], count: usize) -> Option<usize> {
        let is_broad = !self.has_tried && matches!(self.is_broad(rules), Ok(true));
        if !is_broad && self.left > 0 && count <= self.most {
            return None;
        }
        self.most = grown(count);
        self.left = MOST_REPAIRS;
        self.has_tried = true;
        Some(count.saturating_sub(count / 100))
    }

    /// Whether the edit of the kept rules to these has a word with few bits: tables may then differ much.
    fn is_broad(&self, rules: &[Rule]) -> Result<bool, Memory> {
        let Some(words) = self.edited_words(rules)? else {
            return Ok(true);
        };
        Ok(words.iter().any(|word| word.mask.count_ones() <= BROAD))
    }

    /// Entries for these rules, of which `list` is the direct expansion: those that were made anew, in the order of the kept ones,
    /// or else the kept ones repaired; none where too much was edited.
    pub fn proposed(
        &self,
        rules: &[Rule],
        list: &[Entry],
        anew: Option<&[Entry]>,
    ) -> Result<Option<Vec<Entry>>, Memory> {
        if let Some(entries) = anew {
            let ordered = in_old_order(self.alloc, &self.entries, &self.room, entries)?;
            return Ok(Some(ordered));
        }
        let Some(words) = self.edited_words(rules)? else {
            return Ok(None);
        };
        Ok(repaired(self.alloc, &self.entries, &self.room, list, &words)?)
    }

    /// The words in which the edit of the kept rules to these can show; none where they are too many.
    fn edited_words(&self, rules: &[Rule]) -> Result<Option<Vec<Word>>, Memory> {
        let mut differences = Differences::of(&self.rules, rules);
        let mut words = Vec::new(self.alloc);
        let (mut gone, mut came) = (0_usize, 0_usize);
        for _ in 0..=2 * MOST_EDITED {
            let Some((old, new)) = differences.next() else {
                break;
            };
            gone = gone.saturating_add(old.len());
            came = came.saturating_add(new.len());
            if gone > MOST_EDITED || came > MOST_EDITED {
                return Ok(None);
            }
            self.push_words(&mut words, old, new)?;
        }
        Ok(if words.len() > MOST_WORDS {
            None
        } else {
            Some(words)
        })
    }

    /// Pushes the words in which rules that stand in the place of others can show.
    fn push_words(&self, words: &mut Vec<Word>, old: &[Rule], new: &[Rule]) -> Result<(), Memory> {
        let before = expanded_entries(self.alloc, old)?;
        let now = expanded_entries(self.alloc, new)?;
        let is_one = old.len() == 1 && new.len() == 1;
        push_others(words, &before, &now, is_one)?;
        push_others(words, &now, &before, is_one)
    }
}

/// How many entries a table of so many may have before one is made anew: a fiftieth more.
fn grown(count: usize) -> usize {
    count.saturating_add(count / 50)
}

/// Pushes the words of the entries; of one rule in the place of one other only those that the others don't have.
fn push_others(
    words: &mut Vec<Word>,
    entries: &[Entry],
    others: &[Entry],
    is_one: bool,
) -> Result<(), Memory> {
    for entry in entries {
        if !is_one || !others.contains(entry) {
            words.push(entry.word)?;
        }
    }
    Ok(())
}
