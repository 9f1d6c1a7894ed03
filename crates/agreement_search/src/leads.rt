//! The fronts of addresses that words ask for.

use ternary_words::Word;

/// The front of an address that a word asks for: its bits with zeros behind them, and how many they are.
///
/// Of two leads of which one holds the other, the one that holds comes first.
#[derive(Clone, Copy, Debug, PartialEq, Eq, PartialOrd, Ord)]
pub(crate) struct Lead {
    value: u32,
    length: u32,
}

impl Lead {
    /// The front that the word asks for of the source, or of the destination.
    #[inline]
    pub fn of(word: &Word, of_source: bool) -> Lead {
        if of_source {
            Lead::asked(word.value >> 72, word.mask >> 72)
        } else {
            Lead::asked(word.value >> 40, word.mask >> 40)
        }
    }

    /// The front that these lowest 32 bits ask for.
    #[inline]
    fn asked(value: u128, mask: u128) -> Lead {
        let length = low_half(mask).leading_ones();
        Lead {
            value: low_half(value) & front(length),
            length,
        }
    }

    /// Whether each address that has the other front has this one.
    #[inline]
    pub fn holds(self, other: Lead) -> bool {
        self.length <= other.length && (self.value ^ other.value) & front(self.length) == 0
    }

    /// Whether the other lead comes behind all that this one holds.
    #[inline]
    pub fn ends_before(self, other: Lead) -> bool {
        self.value | !front(self.length) < other.value
    }
}

/// The lowest 32 bits.
#[inline(always)]
fn low_half(number: u128) -> u32 {
    (number % (1 << 32)) as u32
}

/// So many ones in front of zeros.
#[inline(always)]
fn front(length: u32) -> u32 {
    ((0xffff_ffff_0000_0000u64 >> length.min(32)) % (1 << 32)) as u32
}
