//! Laws of the definitions, for whoever relies on them. The functions do nothing.
ghost use Rattle.std.specs.Prelude.{List};
ghost use Rattle.node_store.specs.Diagram.{Node};
ghost use Rattle.node_store.specs.Store.{Grows};
ghost use Rattle.table_compose.specs.declared.diagram_plans.Plans.{Plans};
ghost use Rattle.table_compose.specs.Plans.{ArePlansOf, KeepsPlans};
ghost use Rattle.redundancy.specs.declared.removal.Removal.{Removal};
ghost use Rattle.redundancy.specs.Removal.{IsRemovalOf};

/// What removal worked out stays true where the store gains nodes, and where more of their plans are known.
pub fn removal_lasts()
    ensures learnt { (nodes : List Node) (old new : Plans) (r : Removal) → KeepsPlans old new → IsRemovalOf nodes old r → IsRemovalOf nodes new r }
    ensures grown { (old new : List Node) (plans : Plans) (r : Removal) → Grows old new → ArePlansOf old plans → IsRemovalOf old plans r → IsRemovalOf new plans r }
{}
