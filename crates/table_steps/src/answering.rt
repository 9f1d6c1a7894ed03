//! The entries that may answer what a word matches and those before it don't.

ghost use Rattle.std.specs.Prelude.{IfOk};
ghost use Rattle.std.specs.Bool.{OnFalse};
ghost use Rattle.table_steps.specs.Free.{words_of};
ghost use Rattle.table_steps.specs.Answering.{AnswerBehind, IsApart};

use crate::holding::is_held;
use razor_limits::Memory;
use std::alloc::Global;
use ternary_words::{Entry, Word};
use word_cover::{inside, meets};

/// Entries of a table, and for each at which place the entry of another table stands that may hold it.
#[derive(Drop)]
pub(crate) struct Shortlist {
    pub(crate) entries: Vec<Entry>,
    pub(crate) holders: Vec<usize>,
}

/// The entries of the rest that may answer a header of the word that none of those before it matches: up to the first that
/// holds the word, those that meet it, without those that one of the entries before holds.
///
/// `holders` says, for the first entries of the rest, at which place the entry stands that may hold it.
pub(crate) fn answering(
    alloc: Global,
    before: &[Entry],
    rest: &[Entry],
    holders: &[usize],
    word: &Word,
) -> Result<Shortlist, Memory>
    ensures { IfOk result (λ some. AnswerBehind (words_of before.now) some.entries.items rest.now word.now) }
{
    let mut some: Vec<Entry> = Vec::new(alloc);
    let mut places: Vec<usize> = Vec::new(alloc);
    for (place, entry) in rest.iter().enumerate() {
        let holder = holders.get(place).copied();
        if matters(before, entry, holder, word) {
            places.push(holder.unwrap_or(usize::MAX))?;
            some.push(*entry)?;
            if inside(word, &entry.word) {
                return Ok(Shortlist {
                    entries: some,
                    holders: places,
                });
            }
        }
    }
    Ok(Shortlist {
        entries: some,
        holders: places,
    })
}

/// Whether the entry may match a header of the word that none of those before it matches.
fn matters(before: &[Entry], entry: &Entry, holder: Option<usize>, word: &Word) -> bool
    ensures { OnFalse result (IsApart (words_of before.now) entry.now.word word.now) }
{
    if !meets(&entry.word, word) {
        return false;
    }
    !is_held(before, holder, &entry.word)
}
