//! The first entry that matches a header.
ghost use Rattle.std.specs.Prelude.{◌≡◌};
ghost use Rattle.ternary_words.specs.Views.{first_match};

use crate::entry::Entry;
use field_boxes::Header;

/// The place of the first entry whose word matches the header; none exactly where no word does.
///
/// What that entry decides is what the table answers, as [`first_match_answers`] says.
///
/// [`first_match_answers`]: crate::laws::first_match_answers
pub fn look(entries: &[Entry], header: &Header) -> Option<usize>
    ensures { result ≡ first_match header.now.values entries.now }
{
    entries.iter().position(|entry| entry.word.matches(header))
}
