//! Diagrams copied from one store into another.
ghost use Rattle.std.specs.Prelude.{◌≡◌, ◌<◌, ℕ, List, length, IfOk};
ghost use Rattle.field_boxes.specs.Headline.Fields.{AreValues};
ghost use Rattle.node_store.specs.Diagram.{level_of, answer};
ghost use Rattle.node_store.specs.Store.{Grows};
ghost use Rattle.fdd_build.specs.Copies.{IsCopy, AreCopies};

use node_store::{Edge, NodeId, Store};
use razor_limits::Memory;
use std::alloc::Global;

/// The diagram under a node of one store, in another: it answers alike, for all values of its level's fields.
///
/// The walk takes a place for each node of the first store, and a turn for each edge under the root.
pub(crate) fn copied(
    alloc: Global,
    from: &Store,
    root: NodeId,
    store: &mut Store,
) -> Result<NodeId, Memory>
    requires { root.0 < length from.now }
    ensures level { IfOk result (λ id. level_of store.new id.0 ≡ level_of from.now root.0) }
    ensures answers { IfOk result (λ id. (values : List ℕ) → AreValues (level_of from.now root.0) values → answer store.new id.0 values ≡ answer from.now root.0 values) }
    ensures grows { Grows store.old store.new }
{
    let mut copies = vec![in alloc; None; from.count()]?;
    let id = copy(alloc, from, root, store, &mut copies)?;
    Ok(id)
}

/// The copy of a node: from an earlier turn, or made and kept.
#[cycle(copying)]
#[inline(always)]
fn copy(
    alloc: Global,
    from: &Store,
    id: NodeId,
    store: &mut Store,
    copies: &mut [Option<NodeId>],
) -> Result<NodeId, Memory>
    requires number { id.0 < length from.now }
    requires count { length copies.old ≡ length from.now }
    requires copies { AreCopies from.now store.old copies.old }
    ensures copy { IfOk result (λ made. IsCopy from.now store.new id.0 made.0) }
    ensures count { length copies.new ≡ length from.now }
    ensures copies { AreCopies from.now store.new copies.new }
    ensures grows { Grows store.old store.new }
{
    if let Some(known) = copies[id.0 as usize] {
        return Ok(known);
    }
    let made = made(alloc, from, id, store, copies)?;
    copies[id.0 as usize] = Some(made);
    Ok(made)
}

/// The copy of a node over the copies of its children, which have smaller numbers.
#[cycle(copying)]
fn made(
    alloc: Global,
    from: &Store,
    id: NodeId,
    store: &mut Store,
    copies: &mut [Option<NodeId>],
) -> Result<NodeId, Memory>
    requires number { id.0 < length from.now }
    requires count { length copies.old ≡ length from.now }
    requires copies { AreCopies from.now store.old copies.old }
    ensures copy { IfOk result (λ made. IsCopy from.now store.new id.0 made.0) }
    ensures count { length copies.new ≡ length from.now }
    ensures copies { AreCopies from.now store.new copies.new }
    ensures grows { Grows store.old store.new }
{
    if let Some(decision) = from.decision(id) {
        return store.leaf(decision);
    }
    let edges = from.edges(id);
    let mut copied = Vec::with_capacity(alloc, edges.len())?;
    for edge in edges {
        let to = copy(alloc, from, edge.to, store, copies)?;
        copied.push(Edge { hi: edge.hi, to })?;
    }
    let made = store.make(from.level(id), &copied)?;
    Ok(made)
}
