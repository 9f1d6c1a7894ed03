//! Room for the work on a pair, which one pair after another uses.
ghost use Rattle.std.specs.Prelude.{◌≡◌, []};

use node_store::{Edge, Part};
use razor_limits::Memory;
use std::alloc::Global;

/// Room for the parts of a pair, and for the edges that come of them.
#[derive(Drop)]
pub(crate) struct Room {
    pub parts: Vec<Part>,
    pub edges: Vec<Edge>,
}

/// The rooms that pairs have left: never more than a walk is deep.
#[derive(Drop)]
pub(crate) struct Rooms {
    free: Vec<Room>,
}

impl Rooms {
    /// No rooms.
    pub fn new(alloc: Global) -> Rooms {
        Rooms {
            free: Vec::new(alloc),
        }
    }

    /// An empty room: one that is free, where there is any.
    pub fn take(&mut self, alloc: Global) -> Room
        ensures parts { result.parts.items ≡ [] }
        ensures edges { result.edges.items ≡ [] }
    {
        match self.free.pop() {
            Some(room) => cleared(room),
            None => Room {
                parts: Vec::new(alloc),
                edges: Vec::new(alloc),
            },
        }
    }

    /// Takes a room back.
    pub fn give(&mut self, room: Room) -> Result<(), Memory> {
        self.free.push(room)?;
        Ok(())
    }
}

/// The room with nothing in it.
fn cleared(room: Room) -> Room
    ensures parts { result.parts.items ≡ [] }
    ensures edges { result.edges.items ≡ [] }
{
    let mut room = room;
    room.parts.clear();
    room.edges.clear();
    room
}
