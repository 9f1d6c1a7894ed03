//! What is seen of a word and words at a glance.

ghost use Rattle.word_cover.specs.Sights.{IsSeen};

use crate::words::{inside, meets};
use ternary_words::Word;

/// One of the words holds the whole word, or they are too few, or this one holds most of it.
pub(crate) enum Sight {
    Whole,
    Few,
    Largest(usize),
}

/// Looks at the words that meet the word.
///
/// They are too few where they match fewer keys of it than it has, even if no two of them match the same.
pub(crate) fn look(word: &Word, words: &[Word]) -> Sight
    ensures { IsSeen words.now word.now result }
{
    let mut volume = 0u128;
    let mut fewest = 105;
    let mut found = None;
    for (place, other) in words.iter().enumerate() {
        if meets(other, word) {
            let extra = extra_trits(word, other);
            if extra == 0 && inside(word, other) {
                return Sight::Whole;
            }
            volume = volume.saturating_add(share(extra));
            if extra < fewest {
                fewest = extra;
                found = Some(place);
            }
        }
    }
    match found {
        Some(place) if volume >= share(0) => Sight::Largest(place),
        _ => Sight::Few,
    }
}

/// How much of the word the words hold together, where each counts for itself.
pub(crate) fn volume(word: &Word, words: &[Word]) -> u128 {
    let mut sum = 0u128;
    for other in words {
        if meets(other, word) {
            sum = sum.saturating_add(share(extra_trits(word, other)));
        }
    }
    sum
}

/// How many trits the other word asks for where the word doesn't.
fn extra_trits(word: &Word, other: &Word) -> u32 {
    (other.mask & !word.mask).count_ones()
}

/// The part of a word that a word with so many more trits holds of it, in parts of which the whole has 2^104.
fn share(extra: u32) -> u128 {
    1 << (104 - extra.min(104))
}
