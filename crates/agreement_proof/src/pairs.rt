//! The lines of open pairs.
ghost use Rattle.std.specs.Prelude.{◌≡◌, ◌+◌, ◌^◌, ◌≤◌, ◌<◌, ℕ, List, IfOk, OnOk, length, slice_index};
ghost use Rattle.std.specs.Bool.{OnTrue, OnFalse};
ghost use Rattle.agreement_check.specs.declared.pair.Pair.{Pair};
ghost use Rattle.agreement_check.specs.Claims.{IsOpenPair};
ghost use Rattle.agreement_check.specs.Covers.{entry_word};
ghost use Rattle.word_cover.specs.Cubes.{cube_of};
ghost use Rattle.agreement_check.specs.Joins.{AreApart as AreApartInBoxes};
ghost use Rattle.agreement_check.specs.Views.{sides_in};
ghost use Rattle.agreement_proof.specs.Outcome.{AgreeBelow};
ghost use Rattle.agreement_proof.specs.Texts.{AreApart, IsWithin, PutsPair, PutsPairs, reaching};

use crate::lines::put_pair;
use crate::testing::is_cover;
use agreement_check::{Pair, Sides, Step, pair_task};
use agreement_search::Found;
use razor_limits::Memory;
use std::alloc::Global;
use table_equiv::cover_by_halves;
use ternary_words::Word;
use ternary_words::laws::first_match_answers;
use word_cover::meets;

/// How far the covers of the entries reach into the rules, and those of the rules into the entries.
#[derive(Drop)]
pub(crate) struct Reaches {
    pub(crate) entries: Vec<u64>,
    pub(crate) rules: Vec<u64>,
}

/// The number at the place; 0 where none stands.
fn number_at(numbers: &[u64], place: u32) -> u64
    ensures { result ≡ slice_index numbers.now place }
{
    match numbers.get(place as usize) {
        Some(&number) => number,
        None => 0,
    }
}

/// Whether rule and entry decide by other names, and may have a header both.
fn are_apart(sides: &Sides, pair: &Pair, entry: &Word) -> bool
    requires { cube_of entry.now ≡ entry_word sides.now.table.now.entries.items pair.now.entry }
    ensures yes { OnTrue result (AreApart (sides_in sides.now) pair.now) }
    ensures no { OnFalse result (AreApartInBoxes (sides_in sides.now) pair.now → ⊥) }
{
    let rule = sides.rule_word(pair.rule);
    if !meets(&rule, entry) {
        return false;
    }
    if sides.decide_alike(pair) {
        return false;
    }
    sides.meets_rule(pair.rule, entry)
}

/// Whether the pair is open.
fn is_open_pair(sides: &Sides, reaches: &Reaches, pair: &Pair) -> bool
    ensures yes { OnTrue result (AreApart (sides_in sides.now) pair.now) }
    ensures no { OnFalse result (IsOpenPair (sides_in sides.now) (reaching reaches.now.entries.items reaches.now.rules.items) pair.now → ⊥) }
{
    if number_at(&reaches.entries, pair.entry) <= u64::from(pair.rule) {
        return false;
    }
    if number_at(&reaches.rules, pair.rule) <= u64::from(pair.entry) {
        return false;
    }
    are_apart(sides, pair, &sides.entry_word(pair.entry))
}

/// The steps that a search found for the pair.
fn searched<'a>(found: &'a Found, pair: &Pair) -> &'a [Step] {
    let number = found.pairs.partition_point(|other| {
        other.entry < pair.entry || other.entry == pair.entry && other.rule < pair.rule
    });
    match found.pairs.get(number) {
        Some(other) if *other == *pair => found.of_pairs.steps(number),
        _ => &[],
    }
}

/// Puts the line of the pair behind the text, with these steps if they are a cover.
fn put_pair_at(
    alloc: Global,
    text: &mut Vec<u8>,
    sides: &Sides,
    pair: &Pair,
    steps: &[Step],
) -> Result<(), Memory>
    requires agree { AgreeBelow (sides_in sides.now) }
    requires apart { AreApart (sides_in sides.now) pair.now }
    ensures { OnOk result (PutsPair (sides_in sides.now) pair.now text.old.items text.new.items) }
{
    first_match_answers();
    let task = pair_task(sides, pair);
    if is_cover(alloc, sides, &task, steps)? {
        return put_pair(text, pair, steps);
    }
    let steps = cover_by_halves(alloc, sides, &task)?;
    put_pair(text, pair, &steps)
}

/// One more than the count. No proof has 2^32 pairs: then more memory is asked for than there can be.
fn one_more(alloc: Global, count: u64) -> Result<u64, Memory>
    ensures { IfOk result (λ more. (more ≡ count + 1) × (more < 2 ^ 32)) }
{
    if count < u64::from(u32::MAX) {
        return Ok(count + 1);
    }
    let _room: Vec<u8> = Vec::with_capacity(alloc, usize::MAX)?;
    unreachable!()
}

/// Puts the line of the pair behind the text if it is open, behind so many of pairs, and gives how many there are then.
fn put_if_open(
    alloc: Global,
    text: &mut Vec<u8>,
    sides: &Sides,
    found: &Found,
    reaches: &Reaches,
    pair: &Pair,
    before: u64,
) -> Result<u64, Memory>
    requires agree { AgreeBelow (sides_in sides.now) }
    requires within { IsWithin (sides_in sides.now) pair.now }
    ensures { (first : List ℕ) → PutsPairs (sides_in sides.now) (reaching reaches.now.entries.items reaches.now.rules.items) pair.now first text.old.items before → IfOk result (PutsPairs (sides_in sides.now) (reaching reaches.now.entries.items reaches.now.rules.items) (record { rule = pair.now.rule + 1; entry = pair.now.entry }) first text.new.items) }
{
    if !is_open_pair(sides, reaches, pair) {
        return Ok(before);
    }
    put_pair_at(alloc, text, sides, pair, searched(found, pair))?;
    one_more(alloc, before)
}

/// Puts the lines of the entry's open pairs behind the text, of which there are so many lines of pairs so far, and gives how
/// many there are then.
fn put_pairs_of(
    alloc: Global,
    text: &mut Vec<u8>,
    sides: &Sides,
    found: &Found,
    reaches: &Reaches,
    entry: u32,
    before: u64,
) -> Result<u64, Memory>
    requires agree { AgreeBelow (sides_in sides.now) }
    requires entry { entry ≤ length sides.now.table.now.entries.items }
    ensures { (first : List ℕ) → PutsPairs (sides_in sides.now) (reaching reaches.now.entries.items reaches.now.rules.items) (record { rule = 0; entry = entry }) first text.old.items before → IfOk result (PutsPairs (sides_in sides.now) (reaching reaches.now.entries.items reaches.now.rules.items) (record { rule = 0; entry = entry + 1 }) first text.new.items) }
{
    let mut count = before;
    for rule in 0..sides.rule_count() + 1 {
        let pair = Pair { rule, entry };
        count = put_if_open(alloc, text, sides, found, reaches, &pair, count)?;
    }
    Ok(count)
}

/// Puts the lines of all open pairs behind the text, and gives how many there are.
pub(crate) fn put_pairs(
    alloc: Global,
    text: &mut Vec<u8>,
    sides: &Sides,
    found: &Found,
    reaches: &Reaches,
) -> Result<u64, Memory>
    requires { AgreeBelow (sides_in sides.now) }
    ensures { IfOk result (PutsPairs (sides_in sides.now) (reaching reaches.now.entries.items reaches.now.rules.items) (record { rule = 0; entry = length sides.now.table.now.entries.items + 1 }) text.old.items text.new.items) }
{
    let mut count = 0;
    for entry in 0..sides.entry_count() + 1 {
        count = put_pairs_of(alloc, text, sides, found, reaches, entry, count)?;
    }
    Ok(count)
}
