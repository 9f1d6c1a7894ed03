//! Laws of the definitions, for whoever makes pieces. The functions do nothing.
ghost use Rattle.std.specs.Prelude.{◌≡◌, ◌≤◌, ◌<◌, ◌+◌, ◌-◌, ◌*◌, ◌++◌, ◌∷◌, [], ℕ, List, slice_index};
ghost use Rattle.prefix_min.specs.declared.piece.Piece.{Piece};
ghost use Rattle.prefix_min.specs.Pieces.{Follow, reach, weight_from};

/// A piece that ends above all others may follow them, and adds the weights of its values.
pub fn pieces_grow()
    ensures follow { (places start : ℕ) (pieces : List Piece) (p : Piece) →
        Follow places start pieces → reach start pieces ≤ p.hi → p.label < places → Follow places start (pieces ++ p ∷ []) }
    ensures reach { (start : ℕ) (pieces : List Piece) (p : Piece) → reach start (pieces ++ p ∷ []) ≡ p.hi + 1 }
    ensures weight { (weights : List ℕ) (start : ℕ) (pieces : List Piece) (p : Piece) →
        weight_from weights start (pieces ++ p ∷ []) ≡ weight_from weights start pieces + (p.hi + 1 - reach start pieces) * slice_index weights p.label }
{}
