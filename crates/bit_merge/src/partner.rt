//! The least partner of a word: the words that it can be joined with are itself, and itself with another
//! value of one bit of its mask, so there are at most 105 to be looked up.

ghost use Rattle.std.specs.Prelude.{◌≡◌, ◌<◌, ◌+◌, ◌^◌, bit_and, bit_xor};
ghost use Rattle.bit_merge.specs.Near.{IsNear};
ghost use Rattle.bit_merge.specs.Slots.{IsLeast, IsPartner, lesser_of};

use crate::places::Places;
use ternary_words::Word;

/// The least place of a word that can be joined with this one, if there is one.
pub(crate) fn least_partner(places: &Places, word: &Word) -> Option<usize>
    ensures { IsLeast places.now (IsPartner word.now) result }
{
    let mut found = places.least_place(word);
    for bit in 0..104 {
        found = nearer(places, word, bit, found);
    }
    found
}

/// The lesser of the place that was found for the lower bits, and the least place of the word with
/// another value of this bit.
fn nearer(places: &Places, word: &Word, bit: u8, found: Option<usize>) -> Option<usize>
    requires bit { bit < 104 }
    requires found { IsLeast places.now (λ b. IsNear bit word.now.mask word.now.value b.mask b.value) found }
    ensures { IsLeast places.now (λ b. IsNear (bit + 1) word.now.mask word.now.value b.mask b.value) result }
{
    let one = only(bit);
    if word.mask & one == 0 {
        return found;
    }
    lesser(found, places.least_place(&turned(word, one)))
}

/// The word with another value of this bit of its mask.
fn turned(word: &Word, one: u128) -> Word
    requires { bit_and one word.now.mask ≡ one }
    ensures value { result.value ≡ bit_xor word.now.value one }
    ensures mask { result.mask ≡ word.now.mask }
{
    Word {
        value: word.value ^ one,
        mask: word.mask,
    }
}

/// The number of which only this bit is 1.
#[tactic(auto, using(std::proofs::lemmas::Nat::one_shl))]
fn only(bit: u8) -> u128
    requires { bit < 104 }
    ensures { result ≡ 2 ^ bit }
{
    1 << bit
}

/// The lesser of two places, where there are two.
fn lesser(one: Option<usize>, other: Option<usize>) -> Option<usize>
    ensures { result ≡ lesser_of one other }
{
    match (one, other) {
        (Some(one), Some(other)) => Some(one.min(other)),
        (Some(one), None) => Some(one),
        (None, other) => other,
    }
}
