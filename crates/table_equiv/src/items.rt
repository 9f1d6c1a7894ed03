//! What rules and entries have in common: they have headers, decide something, and can be asked about a cube.
ghost use Rattle.std.specs.Prelude.{◌≡◌, ℕ, Bool, List};
ghost use Rattle.std.specs.Bool.{OnTrue};
ghost use Rattle.partition_check.specs.Claims.{rule_matches, entry_matches};
ghost use Rattle.table_equiv.specs.Cubes.{HasAll, HasNone};

use crate::cube::Cube;
use field_boxes::Rule;
use ternary_words::Entry;
use word_cover::{inside, meets};

/// A rule or an entry.
pub(crate) trait Item {
    ghost has: { List ℕ → Self → Bool };

    ghost decided: { Self → ℕ };

    /// Whether it has every header of the cube. Its yes is promised.
    fn has_all(&self, cube: &Cube) -> bool
        ensures { OnTrue result (HasAll has cube.now.word self.now) };

    /// Whether it has no header of the cube. Its yes is promised.
    fn has_none(&self, cube: &Cube) -> bool
        ensures { OnTrue result (HasNone has cube.now.word self.now) };

    /// The number of its decision.
    fn decision(&self) -> u32
        ensures { result ≡ decided self.now };
}

impl Item for Rule {
    ghost has = { rule_matches };

    ghost decided = { λ r. r.decision };

    fn has_all(&self, cube: &Cube) -> bool {
        self.covers(&cube.spans)
    }

    fn has_none(&self, cube: &Cube) -> bool {
        !self.meets(&cube.spans)
    }

    fn decision(&self) -> u32 {
        self.decision
    }
}

impl Item for Entry {
    ghost has = { entry_matches };

    ghost decided = { λ e. e.decision };

    fn has_all(&self, cube: &Cube) -> bool {
        inside(&cube.word, &self.word)
    }

    fn has_none(&self, cube: &Cube) -> bool {
        !meets(&cube.word, &self.word)
    }

    fn decision(&self) -> u32 {
        self.decision
    }
}
