//! The diagrams that answer 0 everywhere.
ghost use Rattle.std.specs.Prelude.{IfOk};
ghost use Rattle.node_store.specs.Levels.{IsLevel};
ghost use Rattle.node_store.specs.Store.{Grows};
ghost use Rattle.fdd_build.specs.Nothing.{AreNothing};

use node_store::{NodeId, Store};
use razor_limits::Memory;
use smallvec::SmallVec;
use std::alloc::Global;

/// A node for a level and for each one after it.
pub(crate) type Nodes = SmallVec<NodeId, 6>;

/// For the level and each one after it the node that answers 0 for all values, which the store gains where
/// it isn't there.
pub(crate) fn nothing_from(alloc: Global, store: &mut Store, level: &[u8]) -> Result<Nodes, Memory>
    requires { IsLevel level.now }
    ensures nothing { IfOk result (λ ids. AreNothing store.new level.now ids.items) }
    ensures grows { Grows store.old store.new }
{
    if level.is_empty() {
        let leaf = store.leaf(0)?;
        let mut ids = SmallVec::new(alloc);
        ids.push(leaf)?;
        return Ok(ids);
    }
    let mut ids = nothing_from(alloc, store, &level[1..])?;
    let id = store.everywhere(level, ids.as_slice()[0])?;
    ids.insert(0, id)?;
    Ok(ids)
}
