//! Laws of the definitions, for whoever relies on them. The functions do nothing.
ghost use Rattle.std.specs.Prelude.{◌≤◌, ℕ, Bool};
ghost use Rattle.range_prefix.specs.Cover.{IsShortestCover};
ghost use Rattle.range_prefix.specs.Shortest.{shortest_cover};

/// Each set of values, be it an interval or not, has a shortest cover, which halving finds.
pub fn halving_is_shortest()
    ensures { (width : ℕ) (set : ℕ → Bool) → width ≤ 32 → IsShortestCover width set (shortest_cover width set) }
{}
