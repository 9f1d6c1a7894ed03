//! The search for an open pair without a line, by halves of the headers.
ghost use Rattle.std.specs.Prelude.{◌≡◌, ◌≤◌, ◌<◌, ◌+◌, ◌⊎◌, ◌↔◌, ◌++◌, ◌∷◌, [], ℕ, List, Contains, IfOk, IfSome, IsTrue, OnOk, if◌then◌else◌, length, slice_index};
ghost use Rattle.std.specs.Bool.{OnFalse};
ghost use Rattle.field_boxes.specs.declared.rule.Rule.{Rule};
ghost use Rattle.agreement_check.specs.declared.pair.Pair.{Pair};
ghost use Rattle.agreement_check.specs.Claims.{IsMissing};
ghost use Rattle.agreement_check.specs.Covers.{entry_word, rule_word};
ghost use Rattle.word_cover.specs.Cubes.{Allows};
ghost use Rattle.agreement_check.specs.Joins.{AreRuleWords, IsFirstOf, IsNoLater, IsOf};
ghost use Rattle.agreement_check.specs.Standing.{IsSound, list_in, own_sides, table_in, taken_in};

use crate::claims::Claims;
use crate::open_pair::{is_missing, number_at};
use crate::pair::{Pair, comes_before};
use crate::parting::parting;
use razor_base::Memory;
use std::alloc::Global;
use ternary_words::Word;
use word_cover::allows;

/// How often the headers are halved, at most.
const MOST_HALVINGS: u32 = 60;

/// The first open pair that has no line.
pub(crate) fn first_missing(alloc: Global, claims: &Claims) -> Result<Option<Pair>, Memory>
    requires { IsSound claims.now }
    ensures { IfOk result (λ found. IsFirstOf (own_sides claims.now) (taken_in claims.now) (λ _. Unit {0}) found) }
{
    let words = rule_words(alloc, claims)?;
    let rules = places(alloc, claims.sides.rule_count() + 1)?;
    let entries = places(alloc, claims.sides.entry_count() + 1)?;
    missing_among(alloc, claims, &words, &rules, &entries, MOST_HALVINGS)
}

/// The words of the rules.
fn rule_words(alloc: Global, claims: &Claims) -> Result<Vec<Word>, Memory>
    ensures words { IfOk result (λ words. AreRuleWords (list_in claims.now).rules.items words.items) }
    ensures each { IfOk result (λ words. length words.items ≡ length (list_in claims.now).rules.items + 1) }
{
    let mut words = Vec::new(alloc);
    for place in 0..claims.sides.rule_count() + 1 {
        words.push(claims.sides.rule_word(place))?;
    }
    Ok(words)
}

/// The first so many places.
fn places(alloc: Global, count: u32) -> Result<Vec<u32>, Memory>
    ensures { IfOk result (λ places. (k : ℕ) → k < count → Contains places.items k) }
{
    let mut places = Vec::new(alloc);
    for place in 0..count {
        places.push(place)?;
    }
    Ok(places)
}

/// The first open pair of one of these rules and one of these entries that has no line.
///
/// It halves the headers at most `depth` times.
fn missing_among(
    alloc: Global,
    claims: &Claims,
    words: &[Word],
    rules: &[u32],
    entries: &[u32],
    depth: u32,
) -> Result<Option<Pair>, Memory>
    requires sound { IsSound claims.now }
    requires words { AreRuleWords (list_in claims.now).rules.items words.now }
    requires each { length words.now ≡ length (list_in claims.now).rules.items + 1 }
    ensures { IfOk result (λ found. IsFirstOf (own_sides claims.now) (taken_in claims.now) (IsOf rules.now entries.now) found) }
{
    let rules = rules_within(alloc, claims, rules, entries)?;
    let entries = entries_within(alloc, claims, &rules, entries)?;
    let Some(bit) = bit_to_halve(claims, words, &rules, &entries, depth) else {
        return Ok(missing_of_each(claims, words, &rules, &entries));
    };
    let zero_rules = rules_allowing(alloc, words, &rules, bit, false)?;
    let zero_entries = entries_allowing(alloc, claims, &entries, bit, false)?;
    let zero = missing_among(alloc, claims, words, &zero_rules, &zero_entries, depth - 1)?;
    let one_rules = rules_allowing(alloc, words, &rules, bit, true)?;
    let one_entries = entries_allowing(alloc, claims, &entries, bit, true)?;
    let one = missing_among(alloc, claims, words, &one_rules, &one_entries, depth - 1)?;
    Ok(earlier(zero, one))
}

/// The bit at which to halve the headers, if they may be halved and that is worth it.
fn bit_to_halve(
    claims: &Claims,
    words: &[Word],
    rules: &[u32],
    entries: &[u32],
    depth: u32,
) -> Option<u32>
    ensures { IfSome result (λ bit. (bit < 104) × (0 < depth)) }
{
    if depth == 0 {
        return None;
    }
    let bit = parting(claims, words, rules, entries)?;
    if bit >= 104 {
        return None;
    }
    Some(bit)
}

/// The one of two that comes first.
fn earlier(one: Option<Pair>, other: Option<Pair>) -> Option<Pair>
    ensures one { (p : Pair) → IsNoLater one p → IsNoLater result p }
    ensures other { (p : Pair) → IsNoLater other p → IsNoLater result p }
    ensures either { (result ≡ one) ⊎ (result ≡ other) }
{
    let Some(first) = one else {
        return other;
    };
    let Some(second) = other else {
        return one;
    };
    if comes_before(&second, &first) {
        other
    } else {
        one
    }
}

/// At least as great as each of the numbers at these places.
fn most_at(numbers: &[u32], places: &[u32]) -> u32
    ensures { (k : ℕ) → Contains places.now k → slice_index numbers.now k ≤ result }
{
    let mut most = 0;
    for &place in places {
        most = number_at(numbers, place).max(most);
    }
    most
}

/// At most as great as each of the numbers.
fn least_of(numbers: &[u32]) -> u32
    ensures { (k : ℕ) → Contains numbers.now k → result ≤ k }
{
    let mut least = u32::MAX;
    for &number in numbers {
        least = number.min(least);
    }
    least
}

/// Whether the place is below the limit, and its own number above the least.
fn is_within(numbers: &[u32], place: u32, least: u32, limit: u32) -> bool
    ensures { IsTrue result ↔ (place < limit) × (least < slice_index numbers.now place) }
{
    place < limit && least < number_at(numbers, place)
}

/// Puts the place behind the others, if it is kept.
fn keep(others: &mut Vec<u32>, place: u32, is_kept: bool) -> Result<(), Memory>
    ensures { OnOk result (others.new.items ≡ if is_kept then others.old.items ++ place ∷ [] else others.old.items) }
{
    if !is_kept {
        return Ok(());
    }
    others.push(place)?;
    Ok(())
}

/// Of the places those below the limit whose own number is above the least.
fn within(
    alloc: Global,
    numbers: &[u32],
    places: &[u32],
    least: u32,
    limit: u32,
) -> Result<Vec<u32>, Memory>
    ensures { IfOk result (λ some. (k : ℕ) → Contains places.now k → k < limit → least < slice_index numbers.now k → Contains some.items k) }
{
    let mut some = Vec::new(alloc);
    for &place in places {
        keep(&mut some, place, is_within(numbers, place, least, limit))?;
    }
    Ok(some)
}

/// Of the rules those that the cover of one of the entries reaches, and whose own cover reaches one of these.
fn rules_within(
    alloc: Global,
    claims: &Claims,
    rules: &[u32],
    entries: &[u32],
) -> Result<Vec<u32>, Memory>
    ensures { IfOk result (λ some. (p : Pair) → IsOf rules.now entries.now p → IsMissing (own_sides claims.now) (taken_in claims.now) p → Contains some.items p.rule) }
{
    let most = most_at(&claims.entries, entries);
    within(alloc, &claims.rules, rules, least_of(entries), most)
}

/// Of the entries those that the cover of one of the rules reaches, and whose own cover reaches one of these.
fn entries_within(
    alloc: Global,
    claims: &Claims,
    rules: &[u32],
    entries: &[u32],
) -> Result<Vec<u32>, Memory>
    ensures { IfOk result (λ some. (p : Pair) → IsOf rules.now entries.now p → IsMissing (own_sides claims.now) (taken_in claims.now) p → Contains some.items p.entry) }
{
    let most = most_at(&claims.rules, rules);
    within(alloc, &claims.entries, entries, least_of(rules), most)
}

/// Of the rules those whose words have headers with this value at the bit.
fn rules_allowing(
    alloc: Global,
    words: &[Word],
    rules: &[u32],
    bit: u32,
    one: bool,
) -> Result<Vec<u32>, Memory>
    requires { bit < 104 }
    ensures { (items : List Rule) → AreRuleWords items words.now → IfOk result (λ some. (k : ℕ) → Contains rules.now k → Allows (rule_word items k) bit one → Contains some.items k) }
{
    let mut some = Vec::new(alloc);
    for &rule in rules {
        keep(&mut some, rule, rule_allows(words, rule, bit, one))?;
    }
    Ok(some)
}

/// Whether the word of the rule has a header with this value at the bit.
fn rule_allows(words: &[Word], rule: u32, bit: u32, one: bool) -> bool
    requires { bit < 104 }
    ensures { (items : List Rule) → AreRuleWords items words.now → OnFalse result (Allows (rule_word items rule) bit one → ⊥) }
{
    match words.get(rule as usize) {
        Some(word) => allows(word, bit, one),
        None => true,
    }
}

/// Of the entries those whose words have headers with this value at the bit.
fn entries_allowing(
    alloc: Global,
    claims: &Claims,
    entries: &[u32],
    bit: u32,
    one: bool,
) -> Result<Vec<u32>, Memory>
    requires { bit < 104 }
    ensures { IfOk result (λ some. (k : ℕ) → Contains entries.now k → Allows (entry_word (table_in claims.now).entries.items k) bit one → Contains some.items k) }
{
    let mut some = Vec::new(alloc);
    for &entry in entries {
        let word = claims.sides.entry_word(entry);
        keep(&mut some, entry, allows(&word, bit, one))?;
    }
    Ok(some)
}

/// The first open pair of one of these rules and one of these entries that has no line, each pair looked at.
fn missing_of_each(claims: &Claims, words: &[Word], rules: &[u32], entries: &[u32]) -> Option<Pair>
    requires sound { IsSound claims.now }
    requires words { AreRuleWords (list_in claims.now).rules.items words.now }
    requires each { length words.now ≡ length (list_in claims.now).rules.items + 1 }
    ensures { IsFirstOf (own_sides claims.now) (taken_in claims.now) (IsOf rules.now entries.now) result }
{
    let mut found = None;
    for &entry in entries {
        found = earlier(found, missing_of(claims, words, rules, entry));
    }
    found
}

/// The first open pair of one of these rules and the entry that has no line.
fn missing_of(claims: &Claims, words: &[Word], rules: &[u32], entry: u32) -> Option<Pair>
    requires sound { IsSound claims.now }
    requires words { AreRuleWords (list_in claims.now).rules.items words.now }
    requires each { length words.now ≡ length (list_in claims.now).rules.items + 1 }
    ensures { IsFirstOf (own_sides claims.now) (taken_in claims.now) (λ p. Contains rules.now p.rule × (p.entry ≡ entry)) result }
{
    let mut found = None;
    for &rule in rules {
        found = earlier(found, missing(claims, words, Pair { rule, entry }));
    }
    found
}

/// The pair, if it is open and has no line.
fn missing(claims: &Claims, words: &[Word], pair: Pair) -> Option<Pair>
    requires sound { IsSound claims.now }
    requires words { AreRuleWords (list_in claims.now).rules.items words.now }
    requires each { length words.now ≡ length (list_in claims.now).rules.items + 1 }
    ensures { IsFirstOf (own_sides claims.now) (taken_in claims.now) (λ p. p ≡ pair) result }
{
    let word = words.get(pair.rule as usize)?;
    if is_missing(claims, word, &pair) {
        return Some(pair);
    }
    None
}
