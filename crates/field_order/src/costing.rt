//! What the table of a rule list costs in an order of the fields.
//! It is for users of the library: no command asks.
ghost use Rattle.std.specs.Prelude.{ℕ, List, IfOk};
ghost use Rattle.field_boxes.specs.NamedRules.{named_rules};
ghost use Rattle.table_compose.specs.Headline.LeastCost.{IsLeastCost};
ghost use Rattle.table_compose.specs.Costs.{AreCostsOf};
ghost use Rattle.field_order.specs.Best.{AreNamesOf};

use crate::order::as_level;
use fdd_build::build;
use field_boxes::{Order, Rule};
use node_store::Store;
use node_store::laws::levels;
use razor_limits::Memory;
use std::alloc::Global;
use table_compose::Costs;

/// The field-by-field least cost of the rules, where the fields are read in the order.
///
/// It is promised of rules that decide the numbers of some names, as those of a list that was read do: a
/// rule that decides 0 is in no such list. Time and room go by the diagram of the rules in the order.
pub fn cost_in(alloc: Global, rules: &[Rule], order: &Order) -> Result<u128, Memory>
    ensures { (names : List (List ℕ)) → AreNamesOf rules.now names →
        IfOk result (λ n. IsLeastCost order.now (named_rules names rules.now) n) }
{
    let mut store = Store::new(alloc);
    let mut costs = Costs::new(alloc);
    let cost = cost_among(alloc, &mut store, &mut costs, rules, order)?;
    Ok(cost)
}

/// The same, by diagrams of a store whose costs are kept.
pub(crate) fn cost_among(
    alloc: Global,
    store: &mut Store,
    costs: &mut Costs,
    rules: &[Rule],
    order: &Order,
) -> Result<u128, Memory>
    requires { AreCostsOf store.old costs.old }
    ensures cost { (names : List (List ℕ)) → AreNamesOf rules.now names →
        IfOk result (λ n. IsLeastCost order.now (named_rules names rules.now) n) }
    ensures costs { AreCostsOf store.new costs.new }
{
    levels();
    let root = build(alloc, store, as_level(order), rules)?;
    let cost = costs.of(store, root)?;
    Ok(cost)
}
