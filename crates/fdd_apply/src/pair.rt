//! Two nodes of one level.
ghost use Rattle.std.specs.Prelude.{◌+◌, ◌*◌, ◌^◌};
ghost use Rattle.std.specs.Cmp.Rules.{hashing};
ghost use Rattle.std.specs.Hash as fed;
ghost use Rattle.std.proofs.Common.{rules};

use node_store::{NodeId, joined};
use std::hash::{Hash, Hasher};

/// Two nodes of one level.
#[derive(Clone, Copy, Debug, PartialEq, Eq)]
pub struct Pair {
    pub left: NodeId,
    pub right: NodeId,
}

impl Hash for Pair {
    ghost hash_input = { λ pair. fed.u64 (pair.left.0 * 2 ^ 32 + pair.right.0) };

    ghost respects_eq = { Prim.search (hashing, rules) };

    fn hash<H: Hasher>(&self, state: &mut H) {
        joined(self.left.0, self.right.0).hash(state);
    }
}
