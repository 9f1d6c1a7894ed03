//! Entries whose words are prefixes in each field.
ghost use Rattle.std.specs.Prelude.{◌↔◌, IsTrue};
ghost use Rattle.ternary_words.specs.Entries.{ArePrefixes};
ghost use Rattle.ternary_words.specs.Prefixes.{IsPrefixInEach};
ghost use Rattle.ternary_words.specs.Views.{word_of};

use crate::entry::Entry;

/// Whether the word of each entry is a prefix in each field.
pub fn are_prefixes(entries: &[Entry]) -> bool
    ensures { IsTrue result ↔ ArePrefixes entries.now }
{
    for entry in entries {
        if !is_prefix(entry) {
            return false;
        }
    }
    true
}

/// Whether the entry's word is.
fn is_prefix(entry: &Entry) -> bool
    ensures { IsTrue result ↔ IsPrefixInEach (word_of entry.now.word) }
{
    entry.word.spans().is_some()
}
