//! What a search knows of a row.

use std::alloc::Global;
use ternary_words::Word;

/// When a row was last tried in vain: the length of the log, how many rows were looked at at most, and its
/// cube at that time.
#[derive(Clone, Copy, Debug, PartialEq, Eq)]
pub struct Failed {
    pub since: usize,
    pub most: usize,
    pub cube: Word,
}

/// What is known of a row, by its id.
#[derive(Debug, Drop)]
pub struct Mark {
    /// The cube that the log last told.
    pub(crate) told: Option<Word>,
    /// The length of the log when the row was last seen to be needed.
    pub(crate) kept: Option<usize>,
    /// The length of the log when the row was last narrowed.
    pub narrowed: Option<usize>,
    /// When nothing was found: first without, then with changes that gain nothing.
    pub failed: [Option<Failed>; 2],
    /// The cubes that were looked at then.
    pub tried: [Vec<Word>; 2],
}

impl Mark {
    /// Of a row that was just put in.
    pub(crate) fn new(alloc: Global, cube: Word) -> Mark {
        Mark {
            told: Some(cube),
            kept: None,
            narrowed: None,
            failed: [None; 2],
            tried: [Vec::new(alloc), Vec::new(alloc)],
        }
    }
}
