//! What a diagram costs.
ghost use Rattle.std.specs.Prelude.{◌≡◌, IfOk};
ghost use Rattle.node_store.specs.Levels.{IsLevel};
ghost use Rattle.node_store.specs.Diagram.{level_of};
ghost use Rattle.table_compose.specs.Diagrams.{IsCostOf};

use crate::costs::Costs;
use node_store::{NodeId, Store};
use razor_limits::Memory;
use std::alloc::Global;

/// The field-by-field least cost of every rule list that decides as the diagram answers.
///
/// Each node of the diagram is worked out once, so time and room go by the nodes and edges of the diagram,
/// and not by the entries that it costs. Each number up to the root's takes a little room, too.
pub fn cost(alloc: Global, store: &Store, root: NodeId) -> Result<u128, Memory>
    requires { IsLevel (level_of store.now root.0) }
    ensures { IfOk result (λ n. IsCostOf store.now (level_of store.now root.0) root.0 n) }
{
    let mut costs = Costs::new(alloc);
    let cost = costs.of(store, root)?;
    Ok(cost)
}
