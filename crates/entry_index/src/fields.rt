//! The five fields of a header.

use ternary_words::{FIELD_PLACES, Word};
use word_cover::freed;

/// The bits of the fields.
pub(crate) const FIELD_BITS: [u128; 5] = [
    0xffff_ffff << 72,
    0xffff_ffff << 40,
    0xffff << 24,
    0xffff << 8,
    0xff,
];

/// The bits of the field with this number, none where it is above 4.
pub fn field(f: usize) -> u128 {
    FIELD_BITS.get(f).copied().unwrap_or(0)
}

/// Lowest bit and width of the field with this number.
pub(crate) fn place_of(f: usize) -> (u32, u32) {
    match FIELD_PLACES.get(f) {
        Some(place) => (u32::from(place.low), u32::from(place.width)),
        None => (0, 0),
    }
}

/// The cube without what the lost bits bring down: in each field the highest lost bit and all below it.
pub fn raised(cube: Word, lost: u128) -> Word {
    let mut cut = 0;
    for bits in &FIELD_BITS {
        cut |= up_to_highest(lost & *bits) & *bits;
    }
    freed(&cube, cut)
}

/// The highest of these bits and all below it.
#[inline]
pub(crate) fn up_to_highest(bits: u128) -> u128 {
    if bits == 0 {
        return 0;
    }
    u128::MAX >> bits.leading_zeros()
}

/// The highest of these bits, or none where there are none.
#[inline]
pub(crate) fn highest(bits: u128) -> u128 {
    if bits == 0 {
        return 0;
    }
    1 << (127 - bits.leading_zeros())
}

/// The lowest of these bits, or none where there are none.
#[inline]
pub(crate) fn lowest(bits: u128) -> u128 {
    bits & bits.wrapping_neg()
}

/// The fixed bits at the top of a field, at the top of 32 bits: value and length of its prefix. The value
/// has what is fixed further down too.
#[derive(Clone, Copy, PartialEq, Eq, PartialOrd, Ord)]
pub(crate) struct Lead {
    pub value: u32,
    pub length: u32,
}

impl Lead {
    #[inline(always)]
    fn of(value: u32, mask: u32) -> Lead {
        Lead {
            value,
            length: mask.leading_ones(),
        }
    }
}

/// The leads of the five fields.
#[inline]
pub(crate) fn leads(cube: Word) -> [Lead; 5] {
    let (value, mask) = (cube.value, cube.mask);
    [
        Lead::of(low_half(value >> 72), low_half(mask >> 72)),
        Lead::of(low_half(value >> 40), low_half(mask >> 40)),
        Lead::of(low_half(value >> 8) & UPPER, low_half(mask >> 8) & UPPER),
        Lead::of(low_half(value << 8) & UPPER, low_half(mask << 8) & UPPER),
        Lead::of(low_half(value) << 24, low_half(mask) << 24),
    ]
}

/// The upper sixteen of 32 bits.
const UPPER: u32 = 0xffff_0000;

/// The lowest 32 bits.
#[inline(always)]
fn low_half(bits: u128) -> u32 {
    (bits % (1 << 32)) as u32
}
