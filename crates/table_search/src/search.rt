//! What a search keeps while it goes over tables.

use crate::effort::FIRST_REACH;
use crate::judging::Judging;
use entry_index::{SearchEntry, View};
use std::alloc::Global;
use std::collections::HashSet;
use ternary_words::Word;

/// What a search keeps while it goes over tables.
#[derive(Drop)]
pub(crate) struct Search {
    pub alloc: Global,
    /// Whether changes that gain nothing are made too.
    pub flat: bool,
    /// How many rows may meet a cube that is looked at, about.
    pub most: usize,
    /// Hashes of the windows in which nothing was found.
    pub failed: HashSet<u64>,
    pub view: View,
    pub judging: Judging,
    /// The rows that were found inside of a cube last.
    pub inside: Vec<(usize, SearchEntry)>,
    /// The cubes that were looked at for an entry.
    pub tried: Vec<Word>,
    /// The rows of a view as they would be.
    pub rows: Vec<SearchEntry>,
    pub scratch: Vec<Word>,
}

impl Search {
    /// A search that has seen nothing.
    pub fn new(alloc: Global) -> Search {
        Search {
            alloc,
            flat: false,
            most: FIRST_REACH,
            failed: HashSet::new(alloc),
            view: View::new(alloc),
            judging: Judging::new(alloc),
            inside: Vec::new(alloc),
            tried: Vec::new(alloc),
            rows: Vec::new(alloc),
            scratch: Vec::new(alloc),
        }
    }
}
