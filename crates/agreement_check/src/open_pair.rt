//! Open pairs: rules and entries that might come first on one header, and decide differently.
ghost use Rattle.std.specs.Prelude.{◌≡◌, ◌↔◌, true, Contains, IsTrue, slice_index};
ghost use Rattle.std.specs.Bool.{OnTrue, OnFalse};
ghost use Rattle.std.specs.List.{AllPairs};
ghost use Rattle.agreement_check.specs.Claims.{IsMissing};
ghost use Rattle.agreement_check.specs.Covers.{rule_word};
ghost use Rattle.word_cover.specs.Cubes.{cube_of};
ghost use Rattle.agreement_check.specs.Joins.{AreApart};
ghost use Rattle.agreement_check.specs.Pairs.{comes_before};
ghost use Rattle.agreement_check.specs.Standing.{IsSound, own_sides, list_in, taken_in};

use crate::claims::Claims;
use crate::pair::{Pair, comes_before};
use ternary_words::Word;
use word_cover::meets;

/// The number at the place; 0 where none stands.
pub(crate) fn number_at(numbers: &[u32], place: u32) -> u32
    ensures { result ≡ slice_index numbers.now place }
{
    match numbers.get(place as usize) {
        Some(&number) => number,
        None => 0,
    }
}

/// Whether the pair is open and has no line; `word` is the word of its rule.
pub(crate) fn is_missing(claims: &Claims, word: &Word, pair: &Pair) -> bool
    requires sound { IsSound claims.now }
    requires word { cube_of word.now ≡ rule_word (list_in claims.now).rules.items pair.now.rule }
    ensures yes { OnTrue result (IsMissing (own_sides claims.now) (taken_in claims.now) pair.now) }
    ensures no { OnFalse result (IsMissing (own_sides claims.now) (taken_in claims.now) pair.now → ⊥) }
{
    if number_at(&claims.entries, pair.entry) <= pair.rule {
        return false;
    }
    if number_at(&claims.rules, pair.rule) <= pair.entry {
        return false;
    }
    if !are_apart(claims, word, pair) {
        return false;
    }
    !has_line(&claims.pairs, pair)
}

/// Whether rule and entry decide by other names, and may have a header both; `word` is the word of the rule.
fn are_apart(claims: &Claims, word: &Word, pair: &Pair) -> bool
    requires { cube_of word.now ≡ rule_word (list_in claims.now).rules.items pair.now.rule }
    ensures yes { OnTrue result (AreApart (own_sides claims.now) pair.now) }
    ensures no { OnFalse result (AreApart (own_sides claims.now) pair.now → ⊥) }
{
    let entry = claims.sides.entry_word(pair.entry);
    if !meets(word, &entry) {
        return false;
    }
    if claims.sides.decide_alike(pair) {
        return false;
    }
    claims.sides.meets_rule(pair.rule, &entry)
}

/// Whether the pair is one of these, which rise.
fn has_line(pairs: &[Pair], pair: &Pair) -> bool
    requires { AllPairs (λ p q. comes_before p q ≡ true) pairs.now }
    ensures yes { OnTrue result (Contains pairs.now pair.now) }
    ensures no { OnFalse result (Contains pairs.now pair.now → ⊥) }
{
    let place = pairs.partition_point(|other| comes_before(other, pair));
    match pairs.get(place) {
        Some(other) => other == pair,
        None => false,
    }
}
