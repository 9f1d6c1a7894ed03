//! What one node costs, and its cheapest prefix list.
ghost use Rattle.std.specs.Prelude.{◌≡◌, ◌<◌, ◌≤◌, length, map, All, IfOk};
ghost use Rattle.table_compose.specs.Asked.{AreChildrenCosted};
ghost use Rattle.table_compose.specs.Plans.{IsCosted, IsPlanned};
ghost use Rattle.table_compose.specs.Rows.{rows_of, led};

use crate::labels::Labelling;
use crate::row::Row;
use node_store::{NodeId, Store};
use prefix_min::{Costing, PrefixRow};
use razor_limits::Memory;
use std::alloc::Global;

/// What a node costs, and its prefix list; a leaf costs one entry and has none.
#[derive(Drop)]
pub(crate) struct NodePlan {
    pub cost: u128,
    pub rows: Vec<Row>,
}

impl NodePlan {
    /// The plan of the node, from the costs of its children by number.
    pub fn of(
        alloc: Global,
        labels: &mut Labelling,
        costing: &mut Costing,
        store: &Store,
        costs: &[u128],
        id: NodeId,
    ) -> Result<NodePlan, Memory>
        requires number { id.0 < length store.now }
        requires costs { id.0 ≤ length costs.now }
        requires places { id.0 ≤ length labels.old.children.places.items }
        requires children { AreChildrenCosted store.now costs.now id.0 }
        ensures plan { IfOk result (λ plan. IsPlanned store.now costs.now id.0 (rows_of plan.rows.items) plan.cost) }
        ensures places { length labels.new.children.places.items ≡ length labels.old.children.places.items }
    {
        let level = store.level(id);
        if level.is_empty() {
            return Ok(NodePlan {
                cost: 1,
                rows: Vec::new(alloc),
            });
        }
        let bits = labels.ask(store, costs, id)?;
        let cheapest = costing.cheapest(labels.pieces.as_slice(), labels.weights.as_slice(), bits)?;
        let rows = leading(
            alloc,
            cheapest.rows.as_slice(),
            labels.children.nodes.as_slice(),
        )?;
        Ok(NodePlan {
            cost: cheapest.cost,
            rows,
        })
    }
}

/// What the node costs, from the costs of its children by number.
pub(crate) fn node_cost(
    labels: &mut Labelling,
    costing: &mut Costing,
    store: &Store,
    costs: &[u128],
    id: NodeId,
) -> Result<u128, Memory>
    requires number { id.0 < length store.now }
    requires costs { id.0 ≤ length costs.now }
    requires places { id.0 ≤ length labels.old.children.places.items }
    requires children { AreChildrenCosted store.now costs.now id.0 }
    ensures costed { IfOk result (λ n. IsCosted store.now id.0 n) }
    ensures places { length labels.new.children.places.items ≡ length labels.old.children.places.items }
{
    let level = store.level(id);
    if level.is_empty() {
        return Ok(1);
    }
    let bits = labels.ask(store, costs, id)?;
    let cost = costing.minimum(labels.pieces.as_slice(), labels.weights.as_slice(), bits)?;
    Ok(cost)
}

/// The rows, each with the child at the place that is its label.
fn leading(alloc: Global, rows: &[PrefixRow], children: &[NodeId]) -> Result<Vec<Row>, Memory>
    requires { All (λ r. r.label < length children.now) rows.now }
    ensures { IfOk result (λ leading. rows_of leading.items ≡ map (led children.now) rows.now) }
{
    let mut leading = Vec::with_capacity(alloc, rows.len())?;
    for row in rows {
        leading.push(Row {
            prefix: row.prefix,
            to: children[row.label as usize],
        })?;
    }
    Ok(leading)
}
