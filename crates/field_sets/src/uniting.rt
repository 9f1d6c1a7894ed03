//! What the union of two sets answers.
ghost use Rattle.std.specs.Prelude.{◌≡◌, IfSome};
ghost use Rattle.node_store.specs.Levels.{IsLevel};
ghost use Rattle.node_store.specs.Diagram.{level_of};
ghost use Rattle.fdd_apply.specs.Applied.{IsApplied};
ghost use Rattle.field_sets.specs.Unions.{united};

use crate::constant::only_answer;
use fdd_apply::{Operation, Pair};
use node_store::{NodeId, Store};

/// The union of two sets, which is seen where both are one, or one is empty or full.
pub(crate) struct Uniting;

impl Operation for Uniting {
    ghost combined = { λ _. united };

    ghost suits = { λ _ _. Unit {0} };

    fn of(&self, left: u32, right: u32) -> u32 {
        united(left, right)
    }

    fn at_sight(&self, store: &Store, level: &[u8], pair: Pair) -> Option<NodeId> {
        let Pair { left, right } = pair;
        if left == right {
            return Some(left);
        }
        match beside(store, level, left, right) {
            Some(known) => Some(known),
            None => beside(store, level, right, left),
        }
    }

    ghost lasts = { λ _ _ _ _ _. tt };
}

/// The number of two that isn't 0, and the lesser one of two such numbers.
fn united(left: u32, right: u32) -> u32
    ensures { result ≡ united left right }
{
    if left == 0 {
        return right;
    }
    if right == 0 {
        return left;
    }
    left.min(right)
}

/// The union with a set that is empty or full.
fn beside(store: &Store, level: &[u8], side: NodeId, other: NodeId) -> Option<NodeId>
    requires level { IsLevel level.now }
    requires side { level_of store.now side.0 ≡ level.now }
    requires other { level_of store.now other.0 ≡ level.now }
    ensures left { IfSome result (λ id. IsApplied united store.now (record { left = side; right = other }) id) }
    ensures right { IfSome result (λ id. IsApplied united store.now (record { left = other; right = side }) id) }
{
    let _level = level;
    let answer = only_answer(store, side)?;
    if answer == 0 {
        return Some(other);
    }
    if answer == 1 {
        return Some(side);
    }
    None
}
