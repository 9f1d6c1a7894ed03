//! The places that a new row of a table may come to, and the free slots there.

use crate::placing::Placed;
use crate::room::{Gaps, Room};
use razor_limits::Memory;
use std::alloc::Global;

/// A place that a row may come to, and the gaps of the old table from which it gets its slot there.
#[derive(Clone, Copy)]
pub(crate) struct Spot {
    pub to: usize,
    pub gaps: Gaps,
}

impl Spot {
    /// The best place for a row between those above and below it, of which it may pass so many above: where a slot is free, the one
    /// with the most room around it, or else the one for which the fewest rows have to move. None where no slot is free anywhere.
    pub fn best(
        alloc: Global,
        above: &[Placed],
        below: &[Placed],
        free: usize,
        room: &Room,
    ) -> Result<Option<Spot>, Memory> {
        let end = below.iter().find_map(|placed| placed.stays());
        let spots = spots(alloc, above, end.unwrap_or(room.last()), free)?;
        Ok(roomiest(&spots, room).or(nearest(&spots, room)))
    }

    /// The same place, with a slot of another gap.
    fn with_slot_of(&self, gap: usize) -> Spot {
        let gaps = Gaps {
            first: gap,
            last: gap,
        };
        Spot { gaps, ..*self }
    }
}

/// The places among these rows that a row behind them may come to, which may pass so many and is before this old row: the last comes first.
fn spots(alloc: Global, above: &[Placed], end: usize, free: usize) -> Result<Vec<Spot>, Memory> {
    let mut spots = Vec::new(alloc);
    let (mut to, mut last) = (above.len(), end);
    for passed in 0..above.len() {
        let place = above.len().saturating_sub(1).saturating_sub(passed);
        let Some(home) = above.get(place).and_then(|placed| placed.stays()) else {
            continue;
        };
        let first = home.saturating_add(1);
        spots.push(Spot {
            to,
            gaps: Gaps { first, last },
        })?;
        if passed >= free {
            return Ok(spots);
        }
        (to, last) = (place, home);
    }
    spots.push(Spot {
        to,
        gaps: Gaps { first: 0, last },
    })?;
    Ok(spots)
}

/// The one with the most room around it, of those where a slot is free.
fn roomiest(spots: &[Spot], room: &Room) -> Option<Spot> {
    spots
        .iter()
        .filter(|spot| room.within(spot.gaps) > 0)
        .max_by_key(|spot| room.around(spot.gaps))
        .copied()
}

/// The first or the last of them, whichever is nearer to a free slot: there the rows between have to move.
fn nearest(spots: &[Spot], room: &Room) -> Option<Spot> {
    let (last, first) = (spots.first()?, spots.last()?);
    let above = room.last_before(first.gaps.first);
    let below = room.first_behind(last.gaps.last);
    let up = above.map(|gap| first.with_slot_of(gap));
    let down = below.map(|gap| last.with_slot_of(gap));
    let (Some(before), Some(behind)) = (above, below) else {
        return up.or(down);
    };
    let is_up = first.gaps.first.saturating_sub(before) <= behind.saturating_sub(last.gaps.last);
    if is_up { up } else { down }
}
