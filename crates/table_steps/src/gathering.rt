//! The words that meet a word.

ghost use Rattle.std.specs.Prelude.{◌++◌, ◌∷◌, [], OnOk};
ghost use Rattle.table_steps.specs.Free.{words_of};
ghost use Rattle.word_cover.specs.Covers.{AreAmong};

use razor_limits::Memory;
use ternary_words::{Entry, Word};
use word_cover::meets;

/// Pushes the words that meet the word.
pub(crate) fn push_words(above: &mut Vec<Word>, words: &[Word], word: &Word) -> Result<(), Memory>
    ensures { OnOk result (AreAmong above.new.items (above.old.items ++ words.now)) }
{
    for other in words {
        push_meeting(above, other, word)?;
    }
    Ok(())
}

/// Pushes the words of the entries that meet the word.
pub(crate) fn push_entries(
    above: &mut Vec<Word>,
    entries: &[Entry],
    word: &Word,
) -> Result<(), Memory>
    ensures { OnOk result (AreAmong above.new.items (above.old.items ++ words_of entries.now)) }
{
    for entry in entries {
        push_meeting(above, &entry.word, word)?;
    }
    Ok(())
}

/// Pushes the other word, if it meets the word.
pub(crate) fn push_meeting(above: &mut Vec<Word>, other: &Word, word: &Word) -> Result<(), Memory>
    ensures { OnOk result (AreAmong above.new.items (above.old.items ++ other.now ∷ [])) }
{
    if !meets(other, word) {
        return Ok(());
    }
    above.push(*other)?;
    Ok(())
}
