//! Entries of a table that is searched.

use ternary_words::Word;

/// An entry of a table that is searched, a row for short: the word that it matches by and what it answers. A fixed one
/// stays where and as it is.
#[derive(Clone, Copy, Debug, PartialEq, Eq)]
pub struct SearchEntry {
    pub word: Word,
    pub decision: u32,
    pub is_fixed: bool,
}
