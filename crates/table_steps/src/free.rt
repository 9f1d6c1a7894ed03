//! Where a word may be put in front of entries.

ghost use Rattle.std.specs.Prelude.{◌++◌, [], IfOk, MatchOption};
ghost use Rattle.std.specs.Bool.{OnTrue};
ghost use Rattle.table_steps.specs.Free.{IsFree, words_of};
ghost use Rattle.table_steps.specs.Passing.{IsOpening};
ghost use Rattle.word_cover.specs.Covers.{AreAmong};

use crate::gathering::{push_entries, push_words};
use crate::passing::{Passing, pass};
use razor_limits::Memory;
use std::alloc::Global;
use ternary_words::{Entry, Word};
use word_cover::{covered, inside, meets};

/// Whether the word may stand in front of the entries `rest` with this decision, where the words `own` and the entries
/// `before` stand in front of it: whether each header that it matches and none of those does is answered so by the rest.
///
/// No where that isn't seen. It tests the word against each of the words and entries once, and asks for a cover at each
/// entry of the rest that meets it and decides otherwise.
pub fn free_for(
    alloc: Global,
    own: &[Word],
    before: &[Entry],
    rest: &[Entry],
    word: &Word,
    decision: u32,
    budget: u32,
) -> Result<bool, Memory>
    ensures { IfOk result (λ yes. OnTrue yes (IsFree (own.now ++ words_of before.now) rest.now word.now decision)) }
{
    let Some(place) = opening(rest, word, decision) else {
        return Ok(true);
    };
    if place == rest.len() && decision == 0 {
        return Ok(true);
    }
    let mut above = hiding(alloc, own, before, &rest[..place], word)?;
    free_behind(alloc, &mut above, &rest[place..], word, decision, budget)
}

/// How many of the first entries don't meet the word or decide the same; none where one of them holds the word.
fn opening(entries: &[Entry], word: &Word, decision: u32) -> Option<usize>
    ensures { MatchOption result (IsFree [] entries.now word.now decision) (IsOpening entries.now word.now decision) }
{
    for (place, entry) in entries.iter().enumerate() {
        if meets(&entry.word, word) {
            if entry.decision != decision {
                return Some(place);
            }
            if inside(word, &entry.word) {
                return None;
            }
        }
    }
    Some(entries.len())
}

/// The words that meet the word: these, those of the entries before it, and those of the first of the rest.
fn hiding(
    alloc: Global,
    own: &[Word],
    before: &[Entry],
    first: &[Entry],
    word: &Word,
) -> Result<Vec<Word>, Memory>
    ensures { IfOk result (λ above. AreAmong above.items ((own.now ++ words_of before.now) ++ words_of first.now)) }
{
    let mut above = Vec::new(alloc);
    push_words(&mut above, own, word)?;
    push_entries(&mut above, before, word)?;
    push_entries(&mut above, first, word)?;
    Ok(above)
}

/// The same as `free_for`, behind the words `above`.
fn free_behind(
    alloc: Global,
    above: &mut Vec<Word>,
    rest: &[Entry],
    word: &Word,
    decision: u32,
    budget: u32,
) -> Result<bool, Memory>
    ensures { IfOk result (λ yes. OnTrue yes (IsFree above.old.items rest.now word.now decision)) }
{
    for entry in rest {
        match pass(alloc, above, entry, word, decision, budget)? {
            Passing::Stuck => return Ok(false),
            Passing::Last => return Ok(true),
            Passing::Next => {}
        }
    }
    if decision == 0 {
        return Ok(true);
    }
    covered(alloc, word, above.as_slice(), budget)
}
