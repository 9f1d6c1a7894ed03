//! The diagrams that answer one number everywhere.
ghost use Rattle.std.specs.Prelude.{◌<◌, length, IfOk, IfSome};
ghost use Rattle.node_store.specs.Levels.{IsLevel};
ghost use Rattle.node_store.specs.Store.{Grows};
ghost use Rattle.field_sets.specs.Constant.{AnswersAlways, AnswersOnly};

use node_store::{NodeId, Store};
use razor_limits::Memory;

/// The node of the level that answers the number for all values, which the store gains where it isn't there.
pub(crate) fn answering(store: &mut Store, level: &[u8], decision: u32) -> Result<NodeId, Memory>
    requires { IsLevel level.now }
    ensures always { IfOk result (λ id. AnswersAlways store.new level.now decision id.0) }
    ensures grows { Grows store.old store.new }
{
    if level.is_empty() {
        let leaf = store.leaf(decision)?;
        return Ok(leaf);
    }
    let to = answering(store, &level[1..], decision)?;
    let id = store.everywhere(level, to)?;
    Ok(id)
}

/// The number that the node answers for all values, where it answers one: then one edge leads from each node to a leaf.
pub(crate) fn only_answer(store: &Store, id: NodeId) -> Option<u32>
    requires { id.0 < length store.now }
    ensures { IfSome result (λ n. AnswersOnly store.now n id.0) }
{
    store.same_answers();
    let edges = store.edges(id);
    if edges.len() == 1 {
        return only_answer(store, edges[0].to);
    }
    store.decision(id)
}
