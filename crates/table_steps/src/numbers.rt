//! The numbers of names that entries decide.

ghost use Rattle.std.specs.Bool.{OnTrue};
ghost use Rattle.ternary_words.specs.Limits.{AreNumbered};

use ternary_words::Entry;

/// Whether each decision is 0 or the number of one of so many names.
pub fn are_numbered(entries: &[Entry], count: u32) -> bool
    ensures { OnTrue result (AreNumbered count entries.now) }
{
    entries.iter().all(|entry| entry.decision <= count)
}
