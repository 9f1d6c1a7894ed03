//! Whether an entry is needed, with a header to show for it.

ghost use Rattle.std.specs.Prelude.{◌<◌, ◌≢◌, IfOk, IfSome, length};
ghost use Rattle.std.specs.Bool.{OnTrue};
ghost use Rattle.std.specs.List.{remove};
ghost use Rattle.field_boxes.specs.Alike.{AreApart, IsTight};
ghost use Rattle.field_boxes.specs.Headline.Fields.{IsHeader};
ghost use Rattle.ternary_words.specs.Entries.{answer};
ghost use Rattle.table_steps.specs.Needs.{IsNeed};

use crate::parts::{Part, Parts};
use crate::steps::redundant;
use crate::wanted::{candidate, is_wanted};
use field_boxes::Header;
use razor_limits::Memory;
use std::alloc::Global;
use ternary_words::Entry;

/// Whether a table needs an entry: it doesn't, or it answers this header otherwise without it, or it wasn't seen.
#[derive(Drop)]
pub enum Need {
    Redundant,
    Needed(Header),
    Unknown,
}

/// Whether the table needs the entry at the place to answer as it does.
pub fn needs(alloc: Global, table: &[Entry], place: usize, budget: u32) -> Result<Need, Memory>
    requires { place < length table.now }
    ensures { IfOk result (λ need. IsNeed table.now place need) }
{
    if redundant(alloc, table, place, budget)? {
        return Ok(Need::Redundant);
    }
    match shown(alloc, table, place, None, budget)? {
        Some(header) => Ok(Need::Needed(header)),
        None => Ok(Need::Unknown),
    }
}

/// A header that the table answers otherwise without the entry at the place, if one is found.
///
/// It is looked for among the entries of a part for the entry's word, if there is one.
fn shown(
    alloc: Global,
    table: &[Entry],
    place: usize,
    part: Option<&Part>,
    budget: u32,
) -> Result<Option<Header>, Memory>
    requires { place < length table.now }
    ensures { IfOk result (λ found. IfSome found (λ header. IsHeader header.values × (answer (remove table.now place) header.values ≢ answer table.now header.values))) }
{
    let entry = table[place];
    let before = &table[..place];
    let later = &table[place + 1..];
    let found = match part {
        Some(part) => candidate(
            alloc,
            part.before(place),
            &entry,
            part.behind(place),
            budget,
        )?,
        None => candidate(alloc, before, &entry, later, budget)?,
    };
    let Some(header) = found else {
        return Ok(None);
    };
    if is_wanted(before, &entry, later, &header) {
        return Ok(Some(header));
    }
    Ok(None)
}

/// Whether no entry can be left out alone; no where that isn't seen.
pub fn is_tight(alloc: Global, table: &[Entry], budget: u32) -> Result<bool, Memory>
    ensures { IfOk result (λ yes. OnTrue yes (IsTight answer table.now)) }
{
    let places: Vec<usize> = (0..table.len()).collect(alloc)?;
    let mut parts = Parts::new(alloc, table)?;
    for place in 0..table.len() {
        let word = &table[place].word;
        let number = parts.number(table, &places, word)?;
        if !is_needed(alloc, table, place, parts.part(number, word), budget)? {
            return Ok(false);
        }
    }
    Ok(true)
}

/// Whether the entry at the place is seen to be needed.
fn is_needed(
    alloc: Global,
    table: &[Entry],
    place: usize,
    part: Option<&Part>,
    budget: u32,
) -> Result<bool, Memory>
    requires { place < length table.now }
    ensures { IfOk result (λ yes. OnTrue yes (AreApart (answer (remove table.now place)) (answer table.now))) }
{
    Ok(shown(alloc, table, place, part, budget)?.is_some())
}
