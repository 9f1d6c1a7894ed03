//! Merging the words of a run.
//!
//! The places are taken in order. The word of the place that is taken is *in hand*: it stands at no place.
//! It is joined with its least partner, wherever that stands. The join is in hand at the lesser of the two
//! places, and goes on so until it has no partner; then it is put down.
//!
//! A pair of words that can be joined holds the word in hand, or lies wholly behind the place that was
//! taken. So the pair with the least places is the word in hand with its least partner: a partner before
//! it is the first of the pair, and one behind it the second.

ghost use Rattle.std.specs.Prelude.{◌≡◌, ◌<◌, suc, None, Some, IfOk, OnOk, length, min, slice_set};
ghost use Rattle.bit_merge.specs.Slots.{AreDone, IsJoined, LeadTo, at};

use crate::joining::joined;
use crate::partner::least_partner;
use crate::places::Places;
use razor_limits::Memory;
use ternary_words::Word;

/// Joins the words as long as two of them can be joined.
pub(crate) fn merge_words(places: &mut Places) -> Result<(), Memory>
    ensures leads { OnOk result (LeadTo places.old places.new) }
    ensures done { OnOk result (AreDone places.new (length places.new)) }
{
    for taken in 0..places.count() {
        finish(places, taken)?;
    }
    Ok(())
}

/// Goes on until the word at the place, if one stands there, has no partner.
fn finish(places: &mut Places, taken: usize) -> Result<(), Memory>
    requires within { taken < length places.old }
    requires done { AreDone places.old taken }
    ensures leads { OnOk result (LeadTo places.old places.new) }
    ensures done { OnOk result (AreDone places.new (suc taken)) }
    ensures count { OnOk result (length places.new ≡ length places.old) }
{
    match places.take(taken)? {
        Some(word) => settle(places, taken, word),
        None => Ok(()),
    }
}

/// Joins the word in hand, which was taken from the place, until it has no partner, and puts it down.
fn settle(places: &mut Places, taken: usize, word: Word) -> Result<(), Memory>
    requires within { taken < length places.old }
    requires empty { at places.old taken ≡ None }
    requires done { AreDone places.old (suc taken) }
    ensures leads { OnOk result (LeadTo (slice_set places.old taken (Some word)) places.new) }
    ensures done { OnOk result (AreDone places.new (suc taken)) }
    ensures count { OnOk result (length places.new ≡ length places.old) }
{
    let mut hand = word;
    let mut place = taken;
    while let Some((join, partner)) = join_next(places, &hand)? {
        hand = join;
        place = lesser(place, partner);
    }
    places.put(place, hand)
}

/// The lesser of two places.
fn lesser(one: usize, other: usize) -> usize
    ensures { result ≡ min one other }
{
    one.min(other)
}

/// Takes the least partner of the word, if it has one: their join, and where the partner stood.
fn join_next(places: &mut Places, word: &Word) -> Result<Option<(Word, usize)>, Memory>
    ensures { IfOk result (λ next. IsJoined places.old places.new word.now next) }
{
    let Some(place) = least_partner(places, word) else {
        return Ok(None);
    };
    match places.take(place)? {
        Some(partner) => Ok(Some((joined(word, &partner), place))),
        None => unreachable!(),
    }
}
