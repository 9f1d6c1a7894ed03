//! Contexts of blocks.
ghost use Rattle.std.specs.Prelude.{◌+◌, ◌*◌, ◌^◌};
ghost use Rattle.std.specs.Cmp.Rules.{hashing};
ghost use Rattle.std.specs.Hash as fed;
ghost use Rattle.std.proofs.Common.{rules};

use node_store::{NodeId, joined};
use std::hash::{Hash, Hasher};

/// A context of a block: what is answered behind it, and the set of what a row before it matches.
#[derive(Clone, Copy, Debug, Default, PartialEq, Eq)]
pub struct Context {
    pub after: NodeId,
    pub met: NodeId,
}

impl Hash for Context {
    ghost hash_input = { λ context. fed.u64 (context.after.0 * 2 ^ 32 + context.met.0) };

    ghost respects_eq = { Prim.search (hashing, rules) };

    fn hash<H: Hasher>(&self, state: &mut H) {
        joined(self.after.0, self.met.0).hash(state);
    }
}
