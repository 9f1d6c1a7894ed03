//! Laws of the definitions, for whoever relies on them. The functions do nothing.
ghost use Rattle.std.specs.Prelude.{◌≡◌, ◌≤◌, ◌<◌, ◌⊎◌, ℕ, suc, List, [], ◌∷◌, ◌++◌, Some, None, All};
ghost use Rattle.node_store.specs.declared.edge.Edge.{Edge};
ghost use Rattle.node_store.specs.declared.split.Part.{Part};
ghost use Rattle.node_store.specs.Edges.{child_of};
ghost use Rattle.field_sets.specs.declared.placed.Placed.{Placed};
ghost use Rattle.field_sets.specs.Placed.{placed_at, RiseFrom};
ghost use Rattle.field_sets.specs.Parting.{IsSplitWithin};

/// The parts of some values, from the first one on: where its values lead, and that the others are the parts of the
/// values past it.
pub fn parts_in_turn()
    ensures none { (lo hi : ℕ) (left right : List Edge) → IsSplitWithin lo hi left right [] → lo ≡ suc hi }
    ensures ends { (lo hi : ℕ) (left right : List Edge) (p : Part) (ps : List Part) → IsSplitWithin lo hi left right (p ∷ ps) → (lo ≤ p.hi) × (p.hi ≤ hi) }
    ensures leads { (lo hi v : ℕ) (left right : List Edge) (p : Part) (ps : List Part) → IsSplitWithin lo hi left right (p ∷ ps) → lo ≤ v → v ≤ p.hi →
        (child_of left v ≡ p.left.0) × (child_of right v ≡ p.right.0) }
    ensures rest { (lo hi : ℕ) (left right : List Edge) (p : Part) (ps : List Part) → IsSplitWithin lo hi left right (p ∷ ps) → IsSplitWithin (suc p.hi) hi left right ps }
{}

/// Spans that rise, and more behind them.
pub fn spans_in_turn()
    ensures joined { (lo n top : ℕ) (front back : List Placed) → RiseFrom lo top front → All (λ p. p.span.hi < n) front → lo ≤ n → RiseFrom n top back → RiseFrom lo top (front ++ back) }
    ensures below { (lo top v : ℕ) (placed : List Placed) → RiseFrom lo top placed → v < lo → placed_at placed v ≡ None }
    ensures above { (n v : ℕ) (placed : List Placed) → All (λ p. p.span.hi < n) placed → n ≤ v → placed_at placed v ≡ None }
    ensures first { (v to : ℕ) (front back : List Placed) → placed_at front v ≡ Some to → placed_at (front ++ back) v ≡ Some to }
    ensures next { (v : ℕ) (front back : List Placed) → placed_at front v ≡ None → placed_at (front ++ back) v ≡ placed_at back v }
{}
