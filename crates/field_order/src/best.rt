//! The best order of the fields for a rule list.
ghost use Rattle.std.specs.Prelude.{◌≡◌, ◌<◌, ◌≤◌, ◌+◌, ℕ, List, IfOk};
ghost use Rattle.field_boxes.specs.Headline.Classifier.{Rule as Named};
ghost use Rattle.field_boxes.specs.NamedRules.{named_rules};
ghost use Rattle.node_store.specs.Diagram.{level_of};
ghost use Rattle.node_store.specs.Store.{Grows};
ghost use Rattle.field_order.specs.Best.{AreNamesOf, IsBestOrder};
ghost use Rattle.field_order.specs.Fronts.{AreFronts};
ghost use Rattle.field_order.specs.Order.{place_of};
ghost use Rattle.field_order.specs.Search.{IsBestSoFar, DecidesAs, IsTried, usual};
ghost use Rattle.field_order.specs.Worth.{AreWorths};

use crate::fronts::Fronts;
use crate::order::{as_level, order_at, usual};
use crate::search::worth;
use crate::worth::{Worth, Worths};
use bumpalo::Bump;
use fdd_build::build;
use field_boxes::{Order, Rule};
use node_store::{NodeId, Store};
use prefix_min::Costing;
use razor_limits::Memory;
use std::alloc::Global;
use table_compose::cost;

/// An order and its place among all of them, with what the rules cost in it.
#[derive(Clone, Copy)]
struct Costed {
    order: Order,
    place: u32,
    cost: u128,
}

/// The place of the usual order.
const USUAL_PLACE: u32 = 2642;

/// The order in which the rules cost least, and what they cost in it; of several such orders the one whose
/// digits come first.
///
/// All 120 orders are tried over one diagram. Each node is taken apart by a field once, and what a node costs in
/// an order of its fields is worked out once; an order is left as soon as it costs more than the best so far.
/// What is promised of the cost is what [`cost_in`](crate::cost_in) promises.
pub fn best_order(alloc: Global, rules: &[Rule]) -> Result<(Order, u128), Memory>
    ensures { (names : List (List ℕ)) → AreNamesOf rules.now names →
        IfOk result (λ best. IsBestOrder (named_rules names rules.now) best.0 best.1) }
{
    let mut store = Store::new(alloc);
    let order = usual();
    let root = build(alloc, &mut store, as_level(&order), rules)?;
    let cost = cost(alloc, &store, root)?;
    let mut best = Costed {
        order,
        place: USUAL_PLACE,
        cost,
    };
    let mut fronts = Fronts::new(alloc);
    let mut worths = Worths::new(alloc);
    let arena = Bump::new(alloc);
    let mut costing = Costing::new(alloc, &arena);
    for place in 0..3125 {
        best = better(
            alloc,
            &mut store,
            &mut fronts,
            &mut worths,
            &mut costing,
            root,
            best,
            place,
        )?;
    }
    Ok((best.order, best.cost))
}

/// The order at the place, if there is one and it is better than the best one of those before it.
fn better(
    alloc: Global,
    store: &mut Store,
    fronts: &mut Fronts,
    worths: &mut Worths,
    costing: &mut Costing,
    root: NodeId,
    best: Costed,
    place: u32,
) -> Result<Costed, Memory>
    requires place { place < 3125 }
    requires root { level_of store.old root.0 ≡ usual }
    requires fronts { AreFronts store.old fronts.old }
    requires worths { AreWorths store.old worths.old }
    ensures best { (rules : List (Named (List ℕ))) → DecidesAs store.old usual root.0 rules → IsBestSoFar rules place best.order best.place best.cost →
        IfOk result (λ best. IsBestSoFar rules (place + 1) best.order best.place best.cost) }
    ensures fronts { AreFronts store.new fronts.new }
    ensures worths { AreWorths store.new worths.new }
    ensures grows { Grows store.old store.new }
{
    let Some(order) = order_at(place) else {
        return Ok(best);
    };
    let level = usual();
    let fields = as_level(&level);
    let found = worth(
        alloc, store, fronts, worths, costing, fields, root, place, best.cost,
    )?;
    Ok(chosen(best, order, place, found))
}

/// The order where it costs less than the best one, or as much and comes before it, and else the best one.
fn chosen(best: Costed, order: Order, place: u32, found: Worth) -> Costed
    ensures { IsTried best order place found result }
{
    let Worth::Is(cost) = found else {
        return best;
    };
    if best.cost < cost || (best.cost == cost && best.place <= place) {
        return best;
    }
    Costed { order, place, cost }
}
