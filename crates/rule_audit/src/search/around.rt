//! The diagrams around a rule, and what they say of it where all fields are read.
ghost use Rattle.std.specs.Prelude.{◌≡◌, []};
ghost use Rattle.std.specs.Bool.{OnTrue, OnFalse};
ghost use Rattle.rule_audit.specs.Search.{AreAround, IsWanted, StandAtLevel, first_answer};

use node_store::{NodeId, Store};
use razor_limits::Memory;
use smallvec::SmallVec;
use std::alloc::Global;

/// Some nodes of one level: few, but for long lists.
pub(crate) type Nodes = SmallVec<NodeId, 8>;

/// The diagram of a rule or of a part, those of the parts before it in order, and those of the parts behind it, the
/// nearest first.
#[derive(Drop)]
pub(crate) struct Around {
    pub here: NodeId,
    pub before: Nodes,
    pub behind: Nodes,
}

impl Around {
    ghost use Rattle.std.specs.Prelude.{◌≡◌, [], ◌∷◌, ◌++◌, IfOk};

    /// The same around the first half of the part.
    pub fn first(&self, alloc: Global, first: NodeId, second: NodeId) -> Result<Around, Memory>
        ensures here { IfOk result (λ around. around.here ≡ first) }
        ensures before { IfOk result (λ around. around.before.items ≡ self.now.before.items) }
        ensures behind { IfOk result (λ around. around.behind.items ≡ second ∷ self.now.behind.items) }
    {
        let before = SmallVec::from_slice(alloc, self.before.as_slice())?;
        let mut behind = SmallVec::from_slice(alloc, self.behind.as_slice())?;
        behind.insert(0, second)?;
        Ok(Around {
            here: first,
            before,
            behind,
        })
    }

    /// The same around the second half of the part.
    pub fn second(&self, alloc: Global, first: NodeId, second: NodeId) -> Result<Around, Memory>
        ensures here { IfOk result (λ around. around.here ≡ second) }
        ensures before { IfOk result (λ around. around.before.items ≡ self.now.before.items ++ first ∷ []) }
        ensures behind { IfOk result (λ around. around.behind.items ≡ self.now.behind.items) }
    {
        let mut before = SmallVec::from_slice(alloc, self.before.as_slice())?;
        before.push(first)?;
        let behind = SmallVec::from_slice(alloc, self.behind.as_slice())?;
        Ok(Around {
            here: second,
            before,
            behind,
        })
    }

    /// The same without the parts behind it.
    pub fn without_behind(&self, alloc: Global) -> Result<Around, Memory>
        ensures here { IfOk result (λ around. around.here ≡ self.now.here) }
        ensures before { IfOk result (λ around. around.before.items ≡ self.now.before.items) }
        ensures behind { IfOk result (λ around. around.behind.items ≡ []) }
    {
        let before = SmallVec::from_slice(alloc, self.before.as_slice())?;
        Ok(Around {
            here: self.here,
            before,
            behind: SmallVec::new(alloc),
        })
    }
}

/// Whether the rule matches, none before it does, and those behind it don't decide as it does.
pub(crate) fn is_wanted(store: &Store, around: &Around) -> bool
    requires { AreAround store.now [] around.now }
    ensures yes { OnTrue result (IsWanted store.now around.now []) }
    ensures no { OnFalse result (IsWanted store.now around.now [] → ⊥) }
{
    let here = store.decision(around.here).unwrap_or(0);
    if here == 0 {
        return false;
    }
    let before = first_of(store, around.before.as_slice());
    if before != 0 {
        return false;
    }
    let behind = first_of(store, around.behind.as_slice());
    if behind == here {
        return false;
    }
    true
}

/// The first decision of the leaves that isn't 0.
fn first_of(store: &Store, leaves: &[NodeId]) -> u32
    requires { StandAtLevel store.now [] leaves.now }
    ensures { result ≡ first_answer store.now leaves.now [] }
{
    for id in leaves {
        let decision = store.decision(*id).unwrap_or(0);
        if decision != 0 {
            return decision;
        }
    }
    0
}
