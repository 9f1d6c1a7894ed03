//! Which nodes are made.
ghost use Rattle.std.specs.Prelude.{◌≡◌, ◌+◌, ◌-◌, ◌*◌, ◌/◌, ◌<◌, ◌≤◌};

/// The protocols at which the second interval of a node may stand alone.
const PLACES: u32 = 254;

/// So many distinct nodes: leaves, and protocol nodes over neighbouring leaves.
#[derive(Clone, Copy, Debug)]
pub struct Plan {
    pub leaves: u32,
    pub nodes: u32,
}

/// A protocol node: the value `middle` leads to the leaf after `outer`, all others to `outer`.
#[derive(Clone, Copy, Debug, PartialEq, Eq)]
pub struct Protocols {
    pub outer: u32,
    pub middle: u32,
}

impl Plan {
    /// So many nodes, of which few are leaves.
    pub fn of(nodes: u32) -> Plan
        ensures nodes { result.nodes ≡ nodes }
        ensures few { result.leaves ≤ nodes / 254 + 2 }
        ensures within { result.leaves ≤ nodes }

        // Each protocol node finds the two leaves below it.
        ensures enough { result.leaves < nodes → nodes < 254 * (result.leaves - 1) }
    {
        let leaves = nodes.min(nodes / PLACES + 2);
        Plan { leaves, nodes }
    }
}

impl Protocols {
    /// The protocol node at the place among all of them; each place has its own.
    pub fn at(place: u32) -> Protocols
        ensures own { 254 * result.outer + result.middle ≡ place + 1 }
        ensures above { 0 < result.middle }
        ensures below { result.middle < 255 }
    {
        Protocols {
            outer: place / PLACES,
            middle: place % PLACES + 1,
        }
    }
}
