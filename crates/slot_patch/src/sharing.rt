//! Which entries of two tables share a slot.
ghost use Rattle.std.specs.Prelude.{◌≡◌, ◌-◌, ◌<◌, ◌≤◌, ◌+◌, ℕ, suc, true, List, Some, length, slice_get, IfOk, OnOk};
ghost use Rattle.ternary_words.specs.declared.entry.Entry.{Entry as SeenEntry};
ghost use Rattle.slot_patch.specs.Finding.{ArePlaces};
ghost use Rattle.slot_patch.specs.Least.{least_slots, same_word};
ghost use Rattle.slot_patch.specs.Piles.{AreBounded, AreLowered, AreStacked, AreTaken};
ghost use Rattle.slot_patch.specs.Sharing.{AreShared};

use crate::ends::{common_end, common_front, push_moved, push_run};
use crate::pair::Pair;
use crate::piles::Piles;
use crate::word_places::WordPlaces;
use razor_limits::Memory;
use std::alloc::Global;
use ternary_words::Entry;

/// As many pairs of equal words as can rise in both tables.
///
/// What the tables have in common at both ends is paired as it stands. For what lies between it takes time in the number of
/// entries and of pairs of equal words, times the logarithm of the first; a table in which no word comes twice has at most as
/// many pairs as entries.
pub(crate) fn shared(alloc: Global, old: &[Entry], new: &[Entry]) -> Result<Vec<Pair>, Memory>
    ensures shared { IfOk result (λ pairs. AreShared old.now new.now 0 0 pairs.items) }
    ensures most { IfOk result (λ pairs. length old.now + length new.now ≤ least_slots same_word old.now new.now + length pairs.items) }
{
    let end = common_end(old, new);
    let first = Pair {
        old: old.len() - end,
        new: new.len() - end,
    };
    let mut pairs = shared_before_end(alloc, &old[..first.old], &new[..first.new], old.len())?;
    push_run(&mut pairs, first, end)?;
    Ok(pairs)
}

/// The same, where no end is looked for, in a list with room for so many.
fn shared_before_end(
    alloc: Global,
    old: &[Entry],
    new: &[Entry],
    room: usize,
) -> Result<Vec<Pair>, Memory>
    ensures shared { IfOk result (λ pairs. AreShared old.now new.now 0 0 pairs.items) }
    ensures most { IfOk result (λ pairs. length old.now + length new.now ≤ least_slots same_word old.now new.now + length pairs.items) }
{
    let front = common_front(old, new);
    let mut pairs = Vec::with_capacity(alloc, room)?;
    push_run(&mut pairs, Pair { old: 0, new: 0 }, front)?;
    let behind = shared_by_piles(alloc, &old[front..], &new[front..])?;
    push_moved(&mut pairs, &behind, front)?;
    Ok(pairs)
}

/// The same, where neither a front nor an end is looked for.
fn shared_by_piles(alloc: Global, old: &[Entry], new: &[Entry]) -> Result<Vec<Pair>, Memory>
    ensures shared { IfOk result (λ pairs. AreShared old.now new.now 0 0 pairs.items) }
    ensures most { IfOk result (λ pairs. length old.now + length new.now ≤ least_slots same_word old.now new.now + length pairs.items) }
{
    let piles = piled(alloc, old, new)?;
    let pairs = piles.pairs(alloc)?;
    Ok(pairs)
}

/// The piles of all pairs of equal words.
fn piled(alloc: Global, old: &[Entry], new: &[Entry]) -> Result<Piles, Memory>
    ensures stacked { IfOk result (AreStacked old.now new.now 0) }
    ensures bounded { IfOk result (λ piles. AreBounded old.now new.now piles.places.items) }
{
    let places = WordPlaces::of(alloc, new)?;
    let mut piles = Piles::none(alloc);
    for done in 0..old.len() {
        lay_row(&mut piles, &places, old, new, old.len() - 1 - done)?;
    }
    Ok(piles)
}

/// Lays the pairs of one old entry, from the first new one to the last.
fn lay_row(
    piles: &mut Piles,
    places: &WordPlaces,
    old: &[Entry],
    new: &[Entry],
    row: usize,
) -> Result<(), Memory>
    requires within { row < length old.now }
    requires places { ArePlaces new.now 0 places.now }
    requires stacked { AreStacked old.now new.now (suc row) piles.old }
    ensures stacked { OnOk result (AreStacked old.now new.now row piles.new) }
    ensures lowered { OnOk result (AreLowered piles.old.places.items piles.new.places.items) }
    ensures taken { (a : SeenEntry) → slice_get old.now row ≡ Some a → OnOk result (AreTaken a new.now piles.old.places.items piles.new.places.items) }
{
    let mut at = places.first(&old[row].word);
    while let Some(place) = at {
        let pair = Pair {
            old: row,
            new: place,
        };
        piles.lay(new.len() - 1 - place, pair)?;
        at = places.next(place);
    }
    Ok(())
}
