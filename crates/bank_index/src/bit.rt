//! Single bits of numbers and words.
ghost use Rattle.std.specs.Prelude.{◌≡◌, ◌<◌};
ghost use Rattle.bank_index.specs.Bits.{bit_at, may_match};

use ternary_words::Word;

/// Whether the number has a 1 at this bit; bit 0 is the lowest.
#[inline]
pub(crate) fn has_bit(number: u128, bit: u32) -> bool
    requires { bit < 104 }
    ensures { result ≡ bit_at number bit }
{
    (number >> bit) % 2 == 1
}

/// Whether the word's trit at this bit is `*`, or 1 or 0 as `one` says.
#[inline]
pub(crate) fn may_match(word: &Word, bit: u32, one: bool) -> bool
    requires { bit < 104 }
    ensures { result ≡ may_match word.now bit one }
{
    !has_bit(word.mask, bit) || has_bit(word.value, bit) == one
}
