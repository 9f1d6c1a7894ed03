//! Numbers of nodes, and edges.
ghost use Rattle.std.specs.Prelude.{◌≡◌, ◌+◌, ◌*◌, ◌^◌};
ghost use Rattle.std.specs.Cmp.Rules.{hashing};
ghost use Rattle.std.specs.Hash as fed;
ghost use Rattle.std.proofs.Common.{rules};

use std::hash::{Hash, Hasher};

/// The number of a node in its store. It has 32 bits, so that an edge takes eight bytes: large diagrams are edges for
/// the most part.
#[derive(Clone, Copy, Debug, Default, PartialEq, Eq, Hash)]
pub struct NodeId(pub u32);

/// Two numbers as one of 64 bits, which a hasher takes in one step.
pub fn joined(high: u32, low: u32) -> u64
    ensures { result ≡ high * 2 ^ 32 + low }
{
    u64::from(high) * (1 << 32) + u64::from(low)
}

/// The values of a field from past the edge before it up to `hi`, and the node to which they lead.
#[derive(Clone, Copy, Debug, Default, PartialEq, Eq)]
pub struct Edge {
    pub hi: u32,
    pub to: NodeId,
}

impl Hash for Edge {
    ghost hash_input = { λ edge. fed.u64 (edge.hi * 2 ^ 32 + edge.to.0) };

    ghost respects_eq = { Prim.search (hashing, rules) };

    fn hash<H: Hasher>(&self, state: &mut H) {
        joined(self.hi, self.to.0).hash(state);
    }
}
