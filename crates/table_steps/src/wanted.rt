//! Headers for which an entry is needed: it is the first that matches, and those behind it answer otherwise.

ghost use Rattle.std.specs.Prelude.{◌≡◌, IfOk, IfSome};
ghost use Rattle.std.specs.Bool.{OnTrue};
ghost use Rattle.std.specs.List.{list_any};
ghost use Rattle.field_boxes.specs.Headline.Fields.{IsHeader};
ghost use Rattle.ternary_words.specs.Entries.{answer, entry_matches};
ghost use Rattle.table_steps.specs.Needs.{IsWanted};

use crate::gathering::{push_entries, push_meeting};
use field_boxes::Header;
use razor_limits::Memory;
use std::alloc::Global;
use ternary_words::{Entry, Word};
use word_cover::{Shown, cover, inside, meet, meets};

/// A header that may be one for which the entry is needed.
pub(crate) fn candidate(
    alloc: Global,
    before: &[Entry],
    entry: &Entry,
    later: &[Entry],
    budget: u32,
) -> Result<Option<Header>, Memory>
    ensures { IfOk result (λ found. IfSome found (λ header. IsHeader header.values)) }
{
    let mut above: Vec<Word> = Vec::new(alloc);
    push_entries(&mut above, before, &entry.word)?;
    for other in later {
        if let Some(header) = unlike(alloc, above.as_slice(), entry, other, budget)? {
            return Ok(Some(header));
        }
        if inside(&entry.word, &other.word) {
            return Ok(None);
        }
        push_meeting(&mut above, &other.word, &entry.word)?;
    }
    left_open(alloc, &entry.word, above.as_slice(), budget)
}

/// A header of both entries that the words above leave open, where the entries decide otherwise.
fn unlike(
    alloc: Global,
    above: &[Word],
    entry: &Entry,
    other: &Entry,
    budget: u32,
) -> Result<Option<Header>, Memory>
    ensures { IfOk result (λ found. IfSome found (λ header. IsHeader header.values)) }
{
    if other.decision == entry.decision || !meets(&other.word, &entry.word) {
        return Ok(None);
    }
    left_open(alloc, &meet(&entry.word, &other.word), above, budget)
}

/// A header that the words leave open of the word, if one is seen.
fn left_open(
    alloc: Global,
    word: &Word,
    words: &[Word],
    budget: u32,
) -> Result<Option<Header>, Memory>
    ensures { IfOk result (λ found. IfSome found (λ header. IsHeader header.values)) }
{
    match cover(alloc, word, words, budget)? {
        Shown::Open(header) => Ok(Some(header)),
        _ => Ok(None),
    }
}

/// Whether the header meets the entry first, and the later entries answer something else.
pub(crate) fn is_wanted(before: &[Entry], entry: &Entry, later: &[Entry], header: &Header) -> bool
    requires { IsHeader header.now.values }
    ensures { OnTrue result (IsWanted before.now entry.now later.now header.now.values) }
{
    if is_met(before, header) {
        return false;
    }
    if !entry.word.matches(header) {
        return false;
    }
    answered(later, header) != entry.decision
}

/// Whether one of the entries matches the header.
fn is_met(entries: &[Entry], header: &Header) -> bool
    ensures { result ≡ list_any (entry_matches header.now.values) entries.now }
{
    entries.iter().any(|entry| entry.word.matches(header))
}

/// What the entries answer.
fn answered(entries: &[Entry], header: &Header) -> u32
    ensures { result ≡ answer entries.now header.now.values }
{
    for entry in entries {
        if entry.word.matches(header) {
            return entry.decision;
        }
    }
    0
}
