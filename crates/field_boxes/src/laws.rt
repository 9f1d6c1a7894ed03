//! Laws of the definitions, for whoever relies on them. The functions do nothing.
ghost use Rattle.std.specs.Prelude.{◌≡◌, ◌<◌, ◌^◌, ◌∷◌, ◌⊎◌, ℕ, List, length};
ghost use Rattle.field_boxes.specs.Fields.{ComesBefore};
ghost use Rattle.field_boxes.specs.Headline.Classifier.{Interval, Rule, source, residue, interval_holds, union_holds};
ghost use Rattle.field_boxes.specs.Unions.{RiseApart};
ghost use Rattle.field_boxes.specs.Headline.Prefix.{FitsWidth, prefix_holds};
ghost use Rattle.field_boxes.specs.Prefix.{prefix_bits, prefix_interval};
ghost use Rattle.field_boxes.specs.Headline.Bits.{bits};
ghost use Rattle.field_boxes.specs.Bits.{begins};
ghost use Rattle.field_boxes.specs.declared.prefix.Prefix.{Prefix};

/// What a list decides over a field and more fields is what its residue at the field's value decides
/// over those.
pub fn source_by_residue()
    ensures { (f v : ℕ) (fields values : List ℕ) (rules : List (Rule (List ℕ))) →
        source (f ∷ fields) (v ∷ values) rules ≡ source fields values (residue f v rules) }
{}

/// Of two headers one comes before the other, or they are the same.
pub fn headers_are_ordered()
    ensures { (a b : List ℕ) → length a ≡ length b → ComesBefore a b ⊎ (a ≡ b) ⊎ ComesBefore b a }
{}

/// A prefix holds the values of the interval from its least value to its greatest.
pub fn prefixes_are_intervals()
    ensures { (width : ℕ) (p : Prefix) → FitsWidth width p → (v : ℕ) → interval_holds v (prefix_interval width p) ≡ prefix_holds width p v }
{}

/// A prefix holds the values whose bits begin with its own.
pub fn prefixes_are_bits()
    ensures { (width : ℕ) (p : Prefix) → FitsWidth width p → (v : ℕ) → v < 2 ^ width → prefix_holds width p v ≡ begins (prefix_bits width p) (bits width v) }
{}

/// Two unions whose intervals rise apart are the same list where they have the same values.
pub fn unions_are_values()
    ensures { (top : ℕ) (a b : List Interval) → RiseApart 0 top a → RiseApart 0 top b → ((v : ℕ) → union_holds v a ≡ union_holds v b) → a ≡ b }
{}
