//! Laws of the definitions, for whoever relies on them. The functions do nothing.
ghost use Rattle.std.specs.Prelude.{◌≡◌, ◌≤◌, ◌^◌, ℕ, List, Some, length, map};
ghost use Rattle.field_boxes.specs.Headline.Classifier.{Rule};
ghost use Rattle.field_boxes.specs.Headline.Fields.{AreValues};
ghost use Rattle.field_boxes.specs.Names.{AreDistinct, name_at};
ghost use Rattle.node_store.specs.Levels.{bits_of};
ghost use Rattle.node_store.specs.Diagram.{Node, answer};
ghost use Rattle.ternary_words.specs.declared.entry.Entry.{Entry};
ghost use Rattle.ternary_words.specs.Headline.Table.{answer as table_answer};
ghost use Rattle.ternary_words.specs.Views.{entry_of};
ghost use Rattle.table_compose.specs.Headline.LeastCost.{IsLeastCost};
ghost use Rattle.table_compose.specs.Choices.{AreAlike};
ghost use Rattle.table_compose.specs.Diagrams.{NamesApart};
ghost use Rattle.table_compose.specs.Composed.{decided};
ghost use Rattle.table_compose.specs.Plans.{ArePlansOf};
ghost use Rattle.table_compose.specs.declared.diagram_plans.Plans.{Plans};
ghost use Rattle.node_store.specs.Store.{Grows};

/// No two numbers are the least cost of one list.
pub fn one_least_cost()
    ensures { (fields : List ℕ) (R : List (Rule (List ℕ))) (m n : ℕ) →
        IsLeastCost fields R m → IsLeastCost fields R n → m ≡ n }
{}

/// Each list has a least cost over any fields, and so in every order of them.
pub fn every_list_has_a_least_cost()
    ensures { (fields : List ℕ) (R : List (Rule (List ℕ))) → (n : ℕ) × IsLeastCost fields R n }
{}

/// Lists that decide alike have one least cost.
pub fn alike_lists_cost_alike()
    ensures { (fields : List ℕ) (R S : List (Rule (List ℕ))) (n : ℕ) →
        AreAlike fields R S → IsLeastCost fields R n → IsLeastCost fields S n }
{}

/// The least cost is at most the number of headers, which is 2 to the bits of the fields.
pub fn at_most_one_entry_a_header()
    ensures { (fields : List ℕ) (R : List (Rule (List ℕ))) (n : ℕ) → IsLeastCost fields R n → n ≤ 2 ^ bits_of fields }
{}

/// Distinct names tell the answers of a diagram apart, where each answer is 0 or the number of a name.
pub fn distinct_names_tell_apart()
    ensures { (nodes : List Node) (fields : List ℕ) (id : ℕ) (names : List (List ℕ)) →
        AreDistinct names → ((values : List ℕ) → AreValues fields values → answer nodes id values ≤ length names) → NamesApart nodes fields id (name_at names) }
{}

/// A table answers by name what its first match decides by number.
pub fn decisions_have_names()
    ensures { (names : List (List ℕ)) (entries : List Entry) (header : List ℕ) (n : ℕ) →
        decided entries header ≡ Some n → table_answer (map (entry_of names) entries) header ≡ name_at names n }
{}

/// Plans of the nodes of a store stay so when the store grows.
pub fn plans_last()
    ensures { (old new : List Node) (plans : Plans) → Grows old new → ArePlansOf old plans → ArePlansOf new plans }
{}
