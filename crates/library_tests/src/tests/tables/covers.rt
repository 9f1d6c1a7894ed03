//! Words of four trits, against the sixteen keys one by one.

use super::small::{holds, next, small_word};
use std::process::Abort;
use std::test::Fail;
use ternary_words::Word;
use word_cover::{Shown, cover, covered, inside, meet, meets};

fn is_held(words: &[Word], key: u32) -> bool {
    for word in words {
        if holds(word, key) {
            return true;
        }
    }
    false
}

fn is_covered(word: &Word, words: &[Word]) -> bool {
    for key in 0..16u32 {
        if holds(word, key) && !is_held(words, key) {
            return false;
        }
    }
    true
}

/// A cover is told, or a header that the word matches and none of the words does.
fn expect_shown(rt: &impl Abort, word: &Word, words: &[Word], shown: &Shown) {
    match shown {
        Shown::Whole => assert!(rt; is_covered(word, words)),
        Shown::Open(header) => {
            assert!(rt; word.matches(header));
            for other in words {
                assert!(rt; !other.matches(header));
            }
        }
        Shown::Unknown => assert!(rt; false),
    }
}

#[test]
fn covers_are_those_of_the_keys(rt: HostRuntime) -> Result<(), Fail> {
    let mut seed = 7u64;
    let mut yes = 0u32;
    for _ in 0..60 {
        let mut words = Vec::new(rt.alloc());
        for _ in 0..8 {
            seed = next(seed);
            words.extend_from_slice(&[small_word(&rt, seed)])?;
        }
        seed = next(seed);
        let word = small_word(&rt, seed);
        let answer = covered(rt.alloc(), &word, words.as_slice(), 1000)?;
        assert!(rt; answer == is_covered(&word, words.as_slice()));
        let shown = cover(rt.alloc(), &word, words.as_slice(), 1000)?;
        expect_shown(&rt, &word, words.as_slice(), &shown);
        yes = yes.saturating_add(u32::from(answer));
    }
    assert!(rt; 5 < yes && yes < 55);
    Ok(())
}

#[test]
fn two_words_are_compared_by_their_keys(rt: HostRuntime) {
    let mut seed = 5u64;
    for _ in 0..60 {
        seed = next(seed);
        let one = small_word(&rt, seed);
        seed = next(seed);
        let other = small_word(&rt, seed);
        let both = meet(&one, &other);
        let mut any = false;
        for key in 0..16u32 {
            let meeting = holds(&one, key) && holds(&other, key);
            any = any || meeting;
            assert!(rt; !meets(&one, &other) || meeting == holds(&both, key));
        }
        assert!(rt; any == meets(&one, &other));
        assert!(rt; inside(&one, &other) == is_covered(&one, &[other]));
    }
}
