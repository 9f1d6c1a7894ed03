//! Covers with a header to show for a no.

ghost use Rattle.std.specs.Prelude.{◌≡◌, ◌<◌, IfOk, IfSome};
ghost use Rattle.std.specs.List.{list_any};
ghost use Rattle.ternary_words.specs.Entries.{matches};
ghost use Rattle.word_cover.specs.Open.{IsCover, IsLeftOpen};

use crate::covering::covered_in;
use crate::sight::volume;
use crate::splits::halves;
use crate::words::meets;
use field_boxes::Header;
use razor_limits::Memory;
use std::alloc::Global;
use ternary_words::{Word, values_of};

/// Whether words cover a word: they match the whole of it, or they leave this header open, or it wasn't seen.
#[derive(Drop)]
pub enum Shown {
    Whole,
    Open(Header),
    Unknown,
}

/// Whether each header that the word matches is matched by one of the words, and else one that isn't.
///
/// [`Shown::Unknown`] where neither is seen in `budget` steps; a step looks at some of the words once.
pub fn cover(alloc: Global, word: &Word, words: &[Word], budget: u32) -> Result<Shown, Memory>
    ensures { IfOk result (λ shown. IsCover words.now word.now shown) }
{
    let mut steps = budget;
    let mut open = *word;
    if covered_in(alloc, word, words, &mut steps, &mut open)? {
        return Ok(Shown::Whole);
    }
    let least = narrowed(alloc, &open, words)?;
    match witness(word, words, &least) {
        Some(header) => Ok(Shown::Open(header)),
        None => Ok(Shown::Unknown),
    }
}

/// A header of the last word, if the first matches it and none of the words does.
fn witness(word: &Word, words: &[Word], least: &Word) -> Option<Header>
    ensures { IfSome result (λ header. IsLeftOpen words.now word.now header.values) }
{
    let header = Header::new(values_of(least.value))?;
    if word.matches(&header) && !is_held(words, &header) {
        Some(header)
    } else {
        None
    }
}

/// Whether one of the words matches the header.
fn is_held(words: &[Word], header: &Header) -> bool
    ensures { result ≡ list_any (matches header.now.values) words.now }
{
    words.iter().any(|word| word.matches(header))
}

/// The word, bit by bit the half of which the words hold less.
fn narrowed(alloc: Global, word: &Word, words: &[Word]) -> Result<Word, Memory> {
    let mut part = *word;
    let mut near = near(alloc, word, words)?;
    for bit in 0..104u32 {
        if near.is_empty() {
            break;
        }
        if part.mask >> bit & 1 == 0 {
            part = emptier(&part, bit, near.as_slice());
            near.retain(|other: &Word| meets(other, &part));
        }
    }
    Ok(part)
}

/// The words that meet the word.
fn near(alloc: Global, word: &Word, words: &[Word]) -> Result<Vec<Word>, Memory> {
    let mut near = Vec::new(alloc);
    for other in words {
        if meets(other, word) {
            near.push(*other)?;
        }
    }
    Ok(near)
}

/// The half of the word at the bit of which the words hold less.
fn emptier(word: &Word, bit: u32, words: &[Word]) -> Word
    requires { bit < 104 }
{
    let (zero, one) = halves(word, bit, false);
    if volume(&zero, words) <= volume(&one, words) {
        zero
    } else {
        one
    }
}
