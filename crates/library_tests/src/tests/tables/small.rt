//! Random words of four trits, and the keys that they hold.
use std::process::Abort;
use ternary_words::Word;

/// A next pseudo-random number.
pub(super) fn next(seed: u64) -> u64 {
    (seed ^ (seed >> 7))
        .wrapping_mul(6364136223846793005)
        .wrapping_add(1442695040888963407)
}

/// A word that asks for some of the last four bits.
pub(super) fn small_word(rt: &impl Abort, seed: u64) -> Word {
    let mask = u128::from(seed >> 40 & 15 | seed >> 30 & 5);
    let value = u128::from(seed >> 50 & 15) & mask;
    assert!(rt; mask < 1 << 104);
    assert!(rt; value & mask == value);
    Word { value, mask }
}

/// Whether the word matches the key.
pub(super) fn holds(word: &Word, key: u32) -> bool {
    (u128::from(key) ^ word.value) & word.mask == 0
}
