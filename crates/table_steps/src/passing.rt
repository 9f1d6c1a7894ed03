//! A word that passes an entry.

ghost use Rattle.std.specs.Prelude.{IfOk};
ghost use Rattle.table_steps.specs.Passing.{IsPassed};

use razor_limits::Memory;
use std::alloc::Global;
use ternary_words::{Entry, Word};
use word_cover::{covered, inside, meet, meets};

/// The word can't pass the entry, or it can and nothing of it is left behind the entry, or it can.
pub(crate) enum Passing {
    Stuck,
    Last,
    Next,
}

/// Passes an entry, which must decide the same or be hidden by the words above where it meets the word.
///
/// An entry that decides the same is one of the words above for those behind it.
pub(crate) fn pass(
    alloc: Global,
    above: &mut Vec<Word>,
    entry: &Entry,
    word: &Word,
    decision: u32,
    budget: u32,
) -> Result<Passing, Memory>
    ensures { IfOk result (λ passing. IsPassed above.old.items above.new.items entry.now word.now decision passing) }
{
    if !meets(&entry.word, word) {
        return Ok(Passing::Next);
    }
    if entry.decision == decision {
        above.push(entry.word)?;
    } else if !covered(alloc, &meet(word, &entry.word), above.as_slice(), budget)? {
        return Ok(Passing::Stuck);
    }
    if inside(word, &entry.word) {
        return Ok(Passing::Last);
    }
    Ok(Passing::Next)
}
