//! Levels in place, and the stated order of the fields.
ghost use Rattle.std.specs.Prelude.{◌≡◌, ◌≤◌, length, nat_eq};
ghost use Rattle.std.specs.Cmp.{partial_equiv_from_equiv};
ghost use Rattle.std.specs.Cmp.Lexicographic.{pointwise, nat_list_eq_equiv};
ghost use Rattle.std.specs.Cmp.Rules.{hashing};
ghost use Rattle.std.specs.Hash as fed;
ghost use Rattle.std.proofs.Common.{rules};
ghost use Rattle.field_boxes.specs.Headline.Fields.{stated};
ghost use Rattle.node_store.specs.Levels.{HasField};

use std::hash::{Hash, Hasher};
use std::marker::Model;

/// The five fields in the stated order.
pub fn stated_order() -> [u8; 5]
    ensures stated { result ≡ stated }
    ensures field { HasField result }
{
    [0, 1, 2, 3, 4]
}

/// The fields that are read from a node on, its own first: at most five, which lie in the node itself.
#[derive(Debug, Drop)]
pub(crate) struct Level {
    fields: [u8; 5],
    count: u8,
}

impl Model for Level {
    ghost use Rattle.std.specs.Prelude.{◌≡◌, ◌≤◌, ℕ, List, length, take};

    ghost Value = { List ℕ };

    ghost view = { λ level. take level.count level.fields };

    ghost invariant = { λ level. (level.count ≤ 5) × (length level.fields ≡ 5) };
}

impl Level {
    /// The level of these fields.
    pub fn of(level: &[u8]) -> Level
        requires { length level.now ≤ 5 }
        ensures { result ≡ level.now }
    {
        let count = level.len();
        let mut fields = [0; 5];
        fields[..count].copy_from_slice(level);
        Level {
            fields,
            count: count as u8,
        }
    }

    /// The fields.
    pub fn as_slice(&self) -> &[u8]
        ensures { result.now ≡ self.now }
    {
        &self.fields[..usize::from(self.count)]
    }
}

impl PartialEq for Level {
    ghost eq = { pointwise nat_eq };

    ghost laws = { partial_equiv_from_equiv nat_list_eq_equiv };

    fn eq(&self, other: &Level) -> bool {
        self.as_slice() == other.as_slice()
    }
}

impl Eq for Level {
    ghost laws = { nat_list_eq_equiv };
}

// Nodes of as many fields are told apart by their edges.
impl Hash for Level {
    ghost use Rattle.std.specs.Prelude.{length};

    ghost hash_input = { λ level. fed.usize (length level) };

    ghost respects_eq = { Prim.search (hashing, rules) };

    fn hash<H: Hasher>(&self, state: &mut H) {
        self.as_slice().len().hash(state);
    }
}
