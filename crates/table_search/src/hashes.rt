//! Hashes of windows.

use entry_index::SearchEntry;

/// A number that tells these rows from others, most likely.
pub(crate) fn hash_of(rows: &[SearchEntry]) -> u64 {
    rows.iter().fold(7, mixed)
}

/// The hash of what went before and this row.
fn mixed(before: u64, row: &SearchEntry) -> u64 {
    let value = halves(row.word.value, 0x9e37_79b9_7f4a_7c15, 0xc2b2_ae3d_27d4_eb4f);
    let mask = halves(row.word.mask, 0x1656_67b1_9e37_79f9, 0xd6e8_feb8_6659_fd93);
    let rest = u64::from(row.decision) << 1 | u64::from(row.is_fixed);
    let row = value ^ mask.rotate_left(23) ^ rest;
    (before.rotate_left(5) ^ row).wrapping_mul(0x517c_c1b7_2722_0a95)
}

/// Both halves of the number, each times its factor.
fn halves(number: u128, low: u64, high: u64) -> u64 {
    let lower = (number % (1 << 64)) as u64;
    let upper = ((number >> 64) % (1 << 64)) as u64;
    lower.wrapping_mul(low) ^ upper.wrapping_mul(high)
}
