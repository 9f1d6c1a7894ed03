//! The join of two words.

ghost use Rattle.std.specs.Prelude.{◌≡◌};
ghost use Rattle.ternary_words.specs.Views.{word_of};
ghost use Rattle.bit_merge.specs.Merge.{CanJoin, join};

use ternary_words::Word;

/// The word with `*` where two words that can be joined differ.
pub(crate) fn joined(first: &Word, second: &Word) -> Word
    requires { CanJoin (word_of first.now) (word_of second.now) }
    ensures { word_of result ≡ join (word_of first.now) (word_of second.now) }
{
    let mask = first.mask ^ (first.value ^ second.value);
    Word {
        value: first.value & mask,
        mask,
    }
}
