//! The search of cubes by halves.
ghost use Rattle.std.specs.Prelude.{◌<◌, ◌≤◌, ℕ, IfOk};
ghost use Rattle.std.specs.Bool.{OnTrue, OnFalse};
ghost use Rattle.partition_check.specs.Claims.{rule_matches, entry_matches};
ghost use Rattle.word_cover.specs.Cubes.{IsOpen, cube_of};
ghost use Rattle.table_equiv.specs.Firsts.{DecidesAs, KeepDecided};
ghost use Rattle.table_equiv.specs.Found.{limit, IsApart, IsFound, IsSearched};

use crate::cube::{Cube, cube_of, least, open_bit};
use crate::halves::halves;
use crate::hint::{fronts, hint};
use crate::kept::{all_places, leader, narrowed};
use agreement_check::{Pair, Sides};
use field_boxes::{Header, RuleList};
use razor_limits::Memory;
use std::alloc::Global;
use ternary_words::laws::first_match_answers;
use ternary_words::{Table, Word, key};

/// Whether no header of the word has a key below that of the best one so far.
fn is_late(word: &Word, best: Option<Header>) -> bool
    ensures yes { OnTrue result (limit best ≤ word.now.value) }
    ensures no { OnFalse result (word.now.value < limit best) }
{
    match best {
        Some(header) => key(header.values) <= word.value,
        None => word.value >= 1 << 104,
    }
}

/// What is found in a cube on all of whose headers list and table decide as the rule and the entry do.
fn settled(sides: &Sides, pair: &Pair, word: &Word, best: Option<Header>) -> Option<Header>
    requires rule { DecidesAs rule_matches (λ r. r.decision) sides.now.list.now.rules.items word.now pair.now.rule }
    requires entry { DecidesAs entry_matches (λ e. e.decision) sides.now.table.now.entries.items word.now pair.now.entry }
    requires early { word.now.value < limit best }
    requires apart { IsApart sides.now.list.now sides.now.table.now best }
    ensures { IsSearched sides.now.list.now sides.now.table.now word.now best result }
{
    first_match_answers();
    if sides.decide_alike(pair) {
        return best;
    }
    Some(least(word))
}

/// What is found in a cube of one header.
fn settled_alone(sides: &Sides, word: &Word, best: Option<Header>) -> Option<Header>
    requires closed { (bit : ℕ) → IsOpen (cube_of word.now) bit → ⊥ }
    requires early { word.now.value < limit best }
    requires apart { IsApart sides.now.list.now sides.now.table.now best }
    ensures { IsSearched sides.now.list.now sides.now.table.now word.now best result }
{
    let header = least(word);
    match sides.difference_on(&header) {
        None => best,
        Some(_) => Some(header),
    }
}

/// The best header so far, or one of the cube with a lesser key on which list and table don't agree: the least such one.
///
/// The places are those of rules and of entries of which the first one that has a header decides as the first one of all, on
/// each header of the cube.
fn descend(
    alloc: Global,
    sides: &Sides,
    fronts: &[u128],
    rules: &[u32],
    entries: &[u32],
    cube: &Cube,
    best: Option<Header>,
) -> Result<Option<Header>, Memory>
    requires rules { KeepDecided rule_matches (λ r. r.decision) sides.now.list.now.rules.items rules.now cube.now.word }
    requires entries { KeepDecided entry_matches (λ e. e.decision) sides.now.table.now.entries.items entries.now cube.now.word }
    requires apart { IsApart sides.now.list.now sides.now.table.now best }
    ensures { IfOk result (IsSearched sides.now.list.now sides.now.table.now cube.now.word best) }
{
    if is_late(&cube.word, best) {
        return Ok(best);
    }
    let some_rules = narrowed(alloc, &sides.list.rules, rules, cube)?;
    let some_entries = narrowed(alloc, &sides.table.entries, entries, cube)?;
    if let Some(rule) = leader(&sides.list.rules, &some_rules, cube) {
        if let Some(entry) = leader(&sides.table.entries, &some_entries, cube) {
            let pair = Pair { rule, entry };
            return Ok(settled(sides, &pair, &cube.word, best));
        }
    }
    let wanted = hint(sides, fronts, &some_rules, &some_entries, cube);
    let Some(bit) = open_bit(&cube.word, wanted) else {
        return Ok(settled_alone(sides, &cube.word, best));
    };
    let (zero, one) = halves(&cube.word, bit);
    let better = descend(
        alloc,
        sides,
        fronts,
        &some_rules,
        &some_entries,
        &cube_of(zero),
        best,
    )?;
    descend(
        alloc,
        sides,
        fronts,
        &some_rules,
        &some_entries,
        &cube_of(one),
        better,
    )
}

/// The least header on which list and table don't decide the same name; none where they do on every header.
pub fn first_difference(
    alloc: Global,
    list: &RuleList,
    table: &Table,
) -> Result<Option<Header>, Memory>
    ensures { IfOk result (IsFound list.now table.now) }
{
    let sides = Sides {
        list,
        table,
        bound: 1 << 104,
    };
    let fronts = fronts(alloc, &list.rules)?;
    let rules = all_places(alloc, &list.rules)?;
    let entries = all_places(alloc, &table.entries)?;
    let whole = Word { value: 0, mask: 0 };
    descend(
        alloc,
        &sides,
        &fronts,
        &rules,
        &entries,
        &cube_of(whole),
        None,
    )
}
