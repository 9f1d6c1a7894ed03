//! Slots parted by a bit.
ghost use Rattle.std.specs.Prelude.{IfOk, IfSome};
ghost use Rattle.bank_index.specs.Parts.{AreParts};

use crate::choosing::choose;
use crate::sides::side;
use razor_limits::Memory;
use std::alloc::Global;
use ternary_words::Entry;

/// So few slots aren't parted.
const FEW: usize = 24;

/// The slots on both sides of a bit, and how many slots the leaves below each may have.
#[derive(Drop)]
pub(crate) struct Parts {
    pub bit: u32,
    pub zeros: Vec<u32>,
    pub ones: Vec<u32>,
    pub zeros_room: usize,
    pub ones_room: usize,
}

/// How much of the room is for one part of two.
fn share(room: usize, part: usize, other: usize) -> usize {
    room.saturating_mul(part) / part.saturating_add(other).max(1)
}

/// Whether both parts are smaller than the whole, and have room.
fn is_gain(zeros: usize, ones: usize, all: usize, room: usize) -> bool {
    zeros < all && ones < all && zeros.saturating_add(ones) <= room
}

/// The slots parted by a bit; none where they are few, or no bit was found that parts them well.
pub(crate) fn part(
    alloc: Global,
    entries: &[Entry],
    slots: &[u32],
    room: usize,
) -> Result<Option<Parts>, Memory>
    ensures { IfOk result (λ found. IfSome found (AreParts entries.now slots.now)) }
{
    if slots.len() <= FEW {
        return Ok(None);
    }
    let Some(bit) = choose(entries, slots) else {
        return Ok(None);
    };
    let zeros = side(alloc, entries, slots, bit, false)?;
    let ones = side(alloc, entries, slots, bit, true)?;
    if !is_gain(zeros.len(), ones.len(), slots.len(), room) {
        return Ok(None);
    }
    let zeros_room = share(room, zeros.len(), ones.len());
    let ones_room = share(room, ones.len(), zeros.len());
    Ok(Some(Parts {
        bit,
        zeros,
        ones,
        zeros_room,
        ones_room,
    }))
}
