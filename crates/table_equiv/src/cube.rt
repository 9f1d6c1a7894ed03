//! Cubes of headers: those that a word matches.
ghost use Rattle.std.specs.Prelude.{◌≡◌, ◌<◌, ◌^◌, ℕ, List, IsTrue, MatchOption};
ghost use Rattle.field_boxes.specs.Boxes.{box_holds, box_of};
ghost use Rattle.field_boxes.specs.Headline.Fields.{IsHeader};
ghost use Rattle.ternary_words.specs.Word.{key_of};
ghost use Rattle.word_cover.specs.Cubes.{IsOpen, cube_of};
ghost use Rattle.table_equiv.specs.Cubes.{IsIn};

use agreement_check::box_of;
use field_boxes::{Header, Span};
use ternary_words::{Word, values_of};
use word_cover::is_open;

/// The headers that a word matches, and a box that holds each.
#[derive(Clone, Copy)]
pub(crate) struct Cube {
    pub(crate) word: Word,
    pub(crate) spans: [Span; 5],
    ghost held: { (header : List ℕ) → IsIn word header → IsTrue (box_holds (box_of spans) header) },
}

/// The cube of the word.
pub(crate) fn cube_of(word: Word) -> Cube
    ensures { result.word ≡ word }
{
    Cube {
        word,
        spans: box_of(&word),
    }
}

/// The header with the key.
fn header_of(key: u128) -> Header
    requires { key < 2 ^ 104 }
    ensures is { IsHeader result.values }
    ensures key { key_of result.values ≡ key }
{
    Header {
        values: values_of(key),
    }
}

/// The header that the word matches with the least key.
pub(crate) fn least(word: &Word) -> Header
    ensures within { IsIn word.now result.values }
    ensures key { key_of result.values ≡ word.now.value }
{
    header_of(word.value)
}

/// A bit that the word leaves open, the wanted one if it does; none where it leaves none open.
pub(crate) fn open_bit(word: &Word, wanted: u32) -> Option<u32>
    ensures { MatchOption result ((bit : ℕ) → IsOpen (cube_of word.now) bit → ⊥) (IsOpen (cube_of word.now)) }
{
    if is_open(word, wanted) {
        return Some(wanted);
    }
    for bit in 0..104u32 {
        if is_open(word, bit) {
            return Some(bit);
        }
    }
    None
}
