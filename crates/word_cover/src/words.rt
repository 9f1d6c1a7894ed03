//! Two words compared, what comes of them, and a word with bits freed or fixed.

ghost use Rattle.std.specs.Prelude.{◌≡◌, ◌∷◌, ◌%◌, ◌^◌, ◌↔◌, [], IsTrue};
ghost use Rattle.std.specs.Bool.{OnTrue, OnFalse};
ghost use Rattle.word_cover.specs.Covers.{AreDisjoint, Covers, HoldsBoth, HoldsOnlyBoth};
ghost use Rattle.word_cover.specs.Cubes.{HasBitsOf, HasKey, IsHull, Meet, all_headers, bits_of, cube_of, freed_of, meet_of, without};

use ternary_words::Word;

/// The word that matches every header.
pub fn all_headers() -> Word
    ensures { cube_of result ≡ all_headers }
{
    Word { value: 0, mask: 0 }
}

/// Whether the word matches the header with this key.
#[inline]
pub fn holds(word: &Word, key: u128) -> bool
    ensures { IsTrue result ↔ HasKey (cube_of word.now) key }
{
    (key ^ word.value) & word.mask == 0
}

/// Whether every bit that both words ask for is the same. Where it isn't, no header matches both.
#[inline]
pub fn meets(one: &Word, other: &Word) -> bool
    ensures is { IsTrue result ↔ Meet (cube_of one.now) (cube_of other.now) }
    ensures apart { OnFalse result (AreDisjoint one.now other.now) }
{
    (one.value ^ other.value) & (one.mask & other.mask) == 0
}

/// Whether the first word asks for every bit that the other asks for, with the same value. Then the other matches each
/// header that the first matches.
#[inline]
pub fn inside(one: &Word, other: &Word) -> bool
    ensures is { IsTrue result ↔ HasBitsOf (cube_of one.now) (cube_of other.now) }
    ensures covers { OnTrue result (Covers (other.now ∷ []) one.now) }
{
    other.mask & one.mask == other.mask && (one.value ^ other.value) & other.mask == 0
}

/// A word that matches each header that both words match, and where there is one, no other.
#[inline]
pub fn meet(one: &Word, other: &Word) -> Word
    ensures is { cube_of result ≡ meet_of (cube_of one.now) (cube_of other.now) }
    ensures holds { HoldsBoth one.now other.now result }
    ensures alone { HoldsOnlyBoth one.now other.now result }
{
    Word {
        value: one.value | other.value,
        mask: one.mask | other.mask,
    }
}

/// The least word that matches all headers that one of the two matches: it asks for what both ask for, and the same.
#[inline]
pub fn hull(one: &Word, other: &Word) -> Word
    ensures { IsHull (cube_of one.now) (cube_of other.now) (cube_of result) }
{
    let mask = without(one.mask & other.mask, one.value ^ other.value);
    Word {
        value: one.value & mask,
        mask,
    }
}

/// The word that asks for none of these bits, and else for what the word asks for.
#[inline]
pub fn freed(word: &Word, bits: u128) -> Word
    ensures { cube_of result ≡ freed_of (cube_of word.now) bits }
{
    Word {
        value: without(word.value, bits),
        mask: without(word.mask, bits),
    }
}

/// The word that asks for these bits of the value too; where it asks for one of them already, with the same value. Bits from
/// 104 on don't count.
#[inline]
pub fn fixed(word: &Word, bits: u128, value: u128) -> Word
    ensures { cube_of result ≡ meet_of (cube_of word.now) (bits_of (bits % 2 ^ 104) value) }
{
    let bits = bits % (1 << 104);
    Word {
        value: word.value | (value & bits),
        mask: word.mask | bits,
    }
}

/// The number with 0 at these bits.
#[inline]
fn without(number: u128, bits: u128) -> u128
    ensures { result ≡ without number bits }
{
    number ^ (number & bits)
}
