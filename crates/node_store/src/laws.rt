//! Laws of the definitions, for whoever relies on them. The functions do nothing.
ghost use Rattle.std.specs.Prelude.{◌≡◌, ◌≤◌, ◌<◌, ℕ, List, [], ◌∷◌, ◌++◌, length};
ghost use Rattle.field_boxes.specs.Alike.{AreAlikeOver};
ghost use Rattle.field_boxes.specs.Headline.Fields.{AreValues};
ghost use Rattle.node_store.specs.Levels.{HasField, IsLevel, next, top_of};
ghost use Rattle.node_store.specs.declared.edge.Edge.{Edge};
ghost use Rattle.node_store.specs.Edges.{AreFull, child_of};
ghost use Rattle.node_store.specs.Diagram.{Node, level_of, edges_of, decision_of, answer};
ghost use Rattle.node_store.specs.Store.{IsStore, LeadTo, Grows};

/// Two nodes of one level that answer alike on all values of its fields have one number.
pub fn one_number()
    ensures { (nodes : List Node) (level : List ℕ) (a b : ℕ) → IsStore nodes → IsLevel level →
        level_of nodes a ≡ level → level_of nodes b ≡ level → AreAlikeOver level (answer nodes a) (answer nodes b) → a ≡ b }
{}

/// What doesn't grow grows by nothing, and what grows and grows again has grown.
pub fn growth()
    ensures none { (nodes : List Node) → Grows nodes nodes }
    ensures twice { (first second third : List Node) → Grows first second → Grows second third → Grows first third }
{}

/// A store that only gains nodes keeps what each old number stands for.
pub fn old_numbers_stay()
    ensures level { (old new : List Node) (id : ℕ) → Grows old new → id < length old → level_of new id ≡ level_of old id }
    ensures edges { (old new : List Node) (id : ℕ) → Grows old new → id < length old → edges_of new id ≡ edges_of old id }
    ensures decision { (old new : List Node) (id : ℕ) → Grows old new → id < length old → decision_of new id ≡ decision_of old id }
    ensures count { (old new : List Node) → Grows old new → length old ≤ length new }
    ensures children { (old new : List Node) (level : List ℕ) (edges : List Edge) → Grows old new → IsLevel level → LeadTo old level edges → LeadTo new level edges }
{}

/// The numbers in use are those with a level, and each value of its field leads from an inner node
/// to an older one of the next level.
pub fn levels()
    ensures in_use { (nodes : List Node) (id : ℕ) → IsLevel (level_of nodes id) → id < length nodes }
    ensures within { (nodes : List Node) (id : ℕ) → IsStore nodes → id < length nodes → IsLevel (level_of nodes id) }
    ensures next { (nodes : List Node) (id v : ℕ) → IsStore nodes → HasField (level_of nodes id) → v ≤ top_of (level_of nodes id) →
        level_of nodes (child_of (edges_of nodes id) v) ≡ next (level_of nodes id) }
    ensures older { (nodes : List Node) (id v : ℕ) → IsStore nodes → HasField (level_of nodes id) → v ≤ top_of (level_of nodes id) →
        child_of (edges_of nodes id) v < id }
{}

/// Edges that fill a field's values up to `top`, and go on with one more edge.
pub fn edges_in_turn()
    ensures alone { (e : Edge) → AreFull e.hi (e ∷ []) }
    ensures next { (top : ℕ) (edges : List Edge) (e : Edge) → AreFull top edges → top < e.hi → AreFull e.hi (edges ++ e ∷ []) }
    ensures before { (top v : ℕ) (edges more : List Edge) → AreFull top edges → v ≤ top → child_of (edges ++ more) v ≡ child_of edges v }
    ensures past { (top v : ℕ) (edges : List Edge) (e : Edge) → AreFull top edges → top < v → v ≤ e.hi → child_of (edges ++ e ∷ []) v ≡ e.to.0 }
{}

/// The values of a level's fields are one of the first field, and those of the next level.
pub fn values_in_turn()
    ensures first { (level : List ℕ) (v : ℕ) (values : List ℕ) → HasField level → v ≤ top_of level → AreValues (next level) values → AreValues level (v ∷ values) }
    ensures within { (level : List ℕ) (v : ℕ) (values : List ℕ) → HasField level → AreValues level (v ∷ values) → v ≤ top_of level }
    ensures rest { (level : List ℕ) (v : ℕ) (values : List ℕ) → HasField level → AreValues level (v ∷ values) → AreValues (next level) values }
    ensures count { (level values : List ℕ) → AreValues level values → length values ≡ length level }
{}
