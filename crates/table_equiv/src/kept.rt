//! The items that may come first on some header of a cube, by their places.
//!
//! Behind the last item of a list stands an open one, which has every header and decides nothing.
ghost use Rattle.std.specs.Prelude.{◌≡◌, ◌≤◌, ◌<◌, ◌^◌, true, false, ℕ, Bool, List, [], ◌∷◌, ◌++◌, Some, IfOk, OnOk, IfSome, find, length, slice_index};
ghost use Rattle.std.specs.List.{position_or_len};
ghost use Rattle.std.specs.Bool.{OnTrue};
ghost use Rattle.table_equiv.specs.Cubes.{IsIn};
ghost use Rattle.table_equiv.specs.Firsts.{decided_at, first_of, DecideSame, KeepAlike, Leads};
ghost use Rattle.table_equiv.specs.Places.{has_at};

use crate::cube::Cube;
use crate::items::Item;
use razor_limits::Memory;
use std::alloc::Global;

/// The places of all items, and that of the open one.
pub(crate) fn all_places<T: Item>(alloc: Global, items: &[T]) -> Result<Vec<u32>, Memory>
    requires { length items.now < 2 ^ 32 }
    ensures { IfOk result (λ places. (header : List ℕ) → first_of (T.has header) items.now places.items ≡ Some (position_or_len (T.has header) items.now)) }
{
    let count = items.len() as u32;
    let mut places = Vec::new(alloc);
    for place in 0..count {
        places.push(place)?;
    }
    places.push(count)?;
    Ok(places)
}

/// Whether the item at the place has every header of the cube. Its yes is promised.
fn has_all_at<T: Item>(items: &[T], place: u32, cube: &Cube) -> bool
    ensures { OnTrue result ((header : List ℕ) → IsIn cube.now.word header → has_at (T.has header) items.now place ≡ true) }
{
    if place as usize >= items.len() {
        return true;
    }
    items[place as usize].has_all(cube)
}

/// Whether the item at the place has no header of the cube. Its yes is promised.
fn has_none_at<T: Item>(items: &[T], place: u32, cube: &Cube) -> bool
    ensures { OnTrue result ((header : List ℕ) → IsIn cube.now.word header → has_at (T.has header) items.now place ≡ false) }
{
    if place as usize >= items.len() {
        return false;
    }
    items[place as usize].has_none(cube)
}

/// What the item at the place decides.
fn decision_at<T: Item>(items: &[T], place: u32) -> u32
    ensures { result ≡ decided_at T.decided items.now place }
{
    if place as usize >= items.len() {
        return 0;
    }
    items[place as usize].decision()
}

/// Of the places, in order, those whose items may have a header of the cube, up to the first that has all of them.
///
/// Where those right before this one decide as it does, they are left out: what they have it has, too.
pub(crate) fn narrowed<T: Item>(
    alloc: Global,
    items: &[T],
    places: &[u32],
    cube: &Cube,
) -> Result<Vec<u32>, Memory>
    ensures { IfOk result (λ kept. KeepAlike T.has T.decided items.now kept.items places.now cube.now.word) }
{
    let mut kept = Vec::new(alloc);
    for &place in places {
        if has_none_at(items, place, cube) {
            continue;
        }
        if has_all_at(items, place, cube) {
            put_last(items, &mut kept, place)?;
            return Ok(kept);
        }
        kept.push(place)?;
    }
    Ok(kept)
}

/// From where on the places all decide so, to the last.
fn deciding_from<T: Item>(items: &[T], places: &[u32], decision: u32) -> usize
    ensures within { result ≤ length places.now }
    ensures alike { (k : ℕ) → result ≤ k → k < length places.now → decided_at T.decided items.now (slice_index places.now k) ≡ decision }
{
    for later in 0..places.len() {
        let place = places.len() - 1 - later;
        if decision_at(items, places[place]) != decision {
            return place + 1;
        }
    }
    0
}

/// Puts the place behind the others, in the stead of those right before it that decide as it does.
fn put_last<T: Item>(items: &[T], kept: &mut Vec<u32>, place: u32) -> Result<(), Memory>
    ensures { (q : ℕ → Bool) → q place ≡ true → OnOk result (DecideSame (decided_at T.decided items.now) (find q kept.new.items) (find q (kept.old.items ++ place ∷ []))) }
{
    let decision = decision_at(items, place);
    let from = deciding_from(items, kept.as_slice(), decision);
    kept.truncate(from);
    kept.push(place)?;
    Ok(())
}

/// The first of the places, if its item has every header of the cube.
pub(crate) fn leader<T: Item>(items: &[T], places: &[u32], cube: &Cube) -> Option<u32>
    ensures { IfSome result (λ place. Leads T.has items.now places.now cube.now.word place) }
{
    if places.is_empty() {
        return None;
    }
    let place = places[0];
    if has_all_at(items, place, cube) {
        Some(place)
    } else {
        None
    }
}
