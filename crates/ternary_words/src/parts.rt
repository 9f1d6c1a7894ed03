//! The five prefixes of a word.
ghost use Rattle.std.specs.Prelude.{◌≡◌, ◌≢◌, ◌≤◌, ◌<◌, ◌+◌, ◌-◌, ◌*◌, ◌/◌, ◌%◌, ◌^◌, ℕ, MatchOption, bit_and};
ghost use Rattle.field_boxes.specs.Headline.Prefix.{FitsWidth};
ghost use Rattle.field_boxes.specs.declared.prefix.Prefix.{Prefix};
ghost use Rattle.ternary_words.specs.Prefixes.{HasMask, IsPart};

use crate::word::Word;
use field_boxes::Prefix;

/// The number of ones of a mask of `width` bits, in front of its zeros; none where a zero stands in
/// front of a one.
fn ones_in_front(mask: u32, width: u8) -> Option<u8>
    requires wide { width ≤ 32 }
    requires small { mask < 2 ^ width }
    ensures { MatchOption result
        ((l : ℕ) → l ≤ width → mask ≢ (2 ^ l - 1) * 2 ^ (width - l))
        (λ l. (l ≤ width) × (mask ≡ (2 ^ l - 1) * 2 ^ (width - l))) }
{
    let free = mask.trailing_zeros().min(u32::from(width));
    let ones = u32::from(width) - free;
    if ((1u64 << ones) - 1) << free == u64::from(mask) {
        Some(ones as u8)
    } else {
        None
    }
}

/// The prefix of a field of `width` bits that has this value and this mask, if there is one.
fn part(value: u32, mask: u32, width: u8) -> Option<Prefix>
    requires wide { width ≤ 32 }
    requires small { mask < 2 ^ width }
    requires within { bit_and value mask ≡ value }
    ensures { MatchOption result (HasMask width mask → ⊥) (IsPart width value mask) }
{
    let len = ones_in_front(mask, width)?;
    Some(Prefix { value, len })
}

/// The prefix in the field of `width` bits of the word above its lowest `low` bits, if it has one.
pub(crate) fn prefix_at(word: &Word, low: u8, width: u8) -> Option<Prefix>
    requires low { low ≤ 72 }
    requires wide { width ≤ 32 }
    ensures { MatchOption result
        (HasMask width (word.now.mask / 2 ^ low % 2 ^ width) → ⊥)
        (IsPart width (word.now.value / 2 ^ low % 2 ^ width) (word.now.mask / 2 ^ low % 2 ^ width)) }
{
    let value = (word.value >> low) % (1 << width);
    let mask = (word.mask >> low) % (1 << width);
    part(value as u32, mask as u32, width)
}
