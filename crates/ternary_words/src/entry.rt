//! The entries of a table.
use crate::word::Word;

/// A word and the number of the decision that its headers get; 0 is no decision, written `miss`.
#[derive(Clone, Copy, Debug, PartialEq, Eq)]
pub struct Entry {
    pub word: Word,
    pub decision: u32,
}
