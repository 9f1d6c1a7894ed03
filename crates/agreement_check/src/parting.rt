//! The bit at which to halve the headers in the search for open pairs. Nothing is promised of it: any bit is right.
ghost use Rattle.std.specs.Prelude.{◌<◌};

use crate::claims::Claims;
use ternary_words::Word;

/// As many pairs as are looked at one by one.
const FEW_PAIRS: u64 = 2_048;

/// As many words of each side as are looked at, at most.
const SAMPLE: usize = 512;

/// How many words have headers with 0 at a bit, and how many with 1.
#[derive(Clone, Copy)]
struct Shares {
    zero: u64,
    one: u64,
}

/// The bit whose halves leave the fewest pairs, if halving is worth it.
pub(crate) fn parting(
    claims: &Claims,
    words: &[Word],
    rules: &[u32],
    entries: &[u32],
) -> Option<u32> {
    if (rules.len() as u64).saturating_mul(entries.len() as u64) <= FEW_PAIRS {
        return None;
    }
    let of_rules = shares_of_rules(words, rules);
    let of_entries = shares_of_entries(claims, entries);
    let mut best = None;
    let mut least = u64::MAX;
    for bit in 0..104u32 {
        let cost = cost(of_rules[bit as usize], of_entries[bit as usize]);
        if cost < least {
            least = cost;
            best = Some(bit);
        }
    }
    let all = sampled(rules.len()).saturating_mul(sampled(entries.len()));
    if least.saturating_mul(8) <= all.saturating_mul(7) {
        best
    } else {
        None
    }
}

/// How many pairs both halves have together.
fn cost(rules: Shares, entries: Shares) -> u64 {
    let zero = rules.zero.saturating_mul(entries.zero);
    let one = rules.one.saturating_mul(entries.one);
    zero.saturating_add(one)
}

/// How far the places that are looked at stand apart.
fn step(count: usize) -> usize
    ensures { 0 < result }
{
    count / SAMPLE + 1
}

/// How many of so many places are looked at.
fn sampled(count: usize) -> u64 {
    count.div_ceil(step(count)) as u64
}

/// The shares of the words of these rules, or of some of them.
fn shares_of_rules(words: &[Word], rules: &[u32]) -> [Shares; 104] {
    let mut shares = [Shares { zero: 0, one: 0 }; 104];
    let step = step(rules.len());
    for k in 0..SAMPLE {
        let Some(&rule) = rules.get(k.saturating_mul(step)) else {
            return shares;
        };
        if let Some(word) = words.get(rule as usize) {
            count_word(&mut shares, word);
        }
    }
    shares
}

/// The shares of the words of these entries, or of some of them.
fn shares_of_entries(claims: &Claims, entries: &[u32]) -> [Shares; 104] {
    let mut shares = [Shares { zero: 0, one: 0 }; 104];
    let step = step(entries.len());
    for k in 0..SAMPLE {
        let Some(&entry) = entries.get(k.saturating_mul(step)) else {
            return shares;
        };
        count_word(&mut shares, &claims.sides.entry_word(entry));
    }
    shares
}

/// Counts the word at each bit.
fn count_word(shares: &mut [Shares; 104], word: &Word) {
    let mut mask = word.mask;
    let mut value = word.value;
    for share in shares.iter_mut() {
        if mask % 2 == 0 || value % 2 == 0 {
            share.zero = share.zero.saturating_add(1);
        }
        if mask % 2 == 0 || value % 2 == 1 {
            share.one = share.one.saturating_add(1);
        }
        mask /= 2;
        value /= 2;
    }
}
