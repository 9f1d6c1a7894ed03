//! One walk over pairs of nodes.
ghost use Rattle.std.specs.Prelude.{◌≡◌, ℕ, List, [], map, Some, IfOk};
ghost use Rattle.std.specs.List.{AllZip};
ghost use Rattle.field_boxes.specs.Headline.Fields.{AreValues};
ghost use Rattle.node_store.specs.Levels.{IsLevel};
ghost use Rattle.node_store.specs.Diagram.{level_of, answer};
ghost use Rattle.node_store.specs.Split.{to_left, to_right};
ghost use Rattle.node_store.specs.Store.{Grows, LeadTo};
ghost use Rattle.fdd_apply.specs.Applied.{AreAt, IsApplied, IsAppliedPart};
ghost use Rattle.fdd_apply.specs.Results.{kept_at, AreResults, KeepsPairs};

use crate::operation::Operation;
use crate::pair::Pair;
use crate::results::Results;
use crate::rooms::Room;
use node_store::{Edge, NodeId, Part, Store};
use razor_limits::Memory;
use std::alloc::Global;

/// The node of the level that answers, for all values of its fields, what comes of the answers of two nodes.
///
/// The results are those of earlier walks with the operation, and gain the pairs that this one went through. They stay
/// true, and the store keeps what all its numbers mean, also after a refusal of memory.
pub fn apply<O: Operation>(
    alloc: Global,
    operation: &O,
    store: &mut Store,
    results: &mut Results,
    level: &[u8],
    left: NodeId,
    right: NodeId,
) -> Result<NodeId, Memory>
    requires suits { O.suits operation.now store.old }
    requires results { AreResults (O.combined operation.now) store.old results.old }
    requires level { IsLevel level.now }
    requires left { level_of store.old left.0 ≡ level.now }
    requires right { level_of store.old right.0 ≡ level.now }
    ensures level { IfOk result (λ id. level_of store.new id.0 ≡ level.now) }
    ensures answers { IfOk result (λ id. (values : List ℕ) → AreValues level.now values →
        answer store.new id.0 values ≡ O.combined operation.now (answer store.old left.0 values) (answer store.old right.0 values)) }
    ensures earlier { KeepsPairs results.old results.new }
    ensures results { AreResults (O.combined operation.now) store.new results.new }
    ensures grows { Grows store.old store.new }
{
    let id = applied(
        alloc,
        operation,
        store,
        results,
        level,
        Pair { left, right },
    )?;
    Ok(id)
}

/// What comes of a pair of a level: known at sight, or kept.
#[cycle(walk)]
fn applied<O: Operation>(
    alloc: Global,
    operation: &O,
    store: &mut Store,
    results: &mut Results,
    level: &[u8],
    pair: Pair,
) -> Result<NodeId, Memory>
    requires suits { O.suits operation.now store.old }
    requires results { AreResults (O.combined operation.now) store.old results.old }
    requires level { IsLevel level.now }
    requires pair { AreAt store.old level.now pair }
    ensures applied { IfOk result (λ id. IsApplied (O.combined operation.now) store.new pair id) }
    ensures earlier { KeepsPairs results.old results.new }
    ensures results { AreResults (O.combined operation.now) store.new results.new }
    ensures grows { Grows store.old store.new }
{
    if let Some(known) = operation.at_sight(store, level, pair) {
        return Ok(known);
    }
    let id = recalled(alloc, operation, store, results, level, pair)?;
    Ok(id)
}

/// The same, from an earlier turn, or worked out and kept.
#[cycle(walk)]
fn recalled<O: Operation>(
    alloc: Global,
    operation: &O,
    store: &mut Store,
    results: &mut Results,
    level: &[u8],
    pair: Pair,
) -> Result<NodeId, Memory>
    requires suits { O.suits operation.now store.old }
    requires results { AreResults (O.combined operation.now) store.old results.old }
    requires level { IsLevel level.now }
    requires pair { AreAt store.old level.now pair }
    ensures applied { IfOk result (λ id. IsApplied (O.combined operation.now) store.new pair id) }
    ensures kept { IfOk result (λ id. kept_at results.new pair ≡ Some id) }
    ensures earlier { KeepsPairs results.old results.new }
    ensures results { AreResults (O.combined operation.now) store.new results.new }
    ensures grows { Grows store.old store.new }
{
    if let Some(known) = results.get(pair) {
        return Ok(known);
    }
    let id = worked_out(alloc, operation, store, results, level, pair)?;
    results.keep(pair, id)?;
    Ok(id)
}

/// What comes of a pair: a leaf, or a node with an edge for each part of the field.
#[cycle(walk)]
fn worked_out<O: Operation>(
    alloc: Global,
    operation: &O,
    store: &mut Store,
    results: &mut Results,
    level: &[u8],
    pair: Pair,
) -> Result<NodeId, Memory>
    requires suits { O.suits operation.now store.old }
    requires results { AreResults (O.combined operation.now) store.old results.old }
    requires level { IsLevel level.now }
    requires pair { AreAt store.old level.now pair }
    ensures applied { IfOk result (λ id. IsApplied (O.combined operation.now) store.new pair id) }
    ensures earlier { KeepsPairs results.old results.new }
    ensures results { AreResults (O.combined operation.now) store.new results.new }
    ensures grows { Grows store.old store.new }
{
    if level.is_empty() {
        return leaf(operation, store, pair);
    }
    let Room {
        parts: no_parts,
        edges: no_edges,
    } = results.rooms.take(alloc);
    let parts = store.split_in(pair.left, pair.right, no_parts)?;
    let edges = edges(
        alloc,
        operation,
        store,
        results,
        &level[1..],
        parts.as_slice(),
        no_edges,
    )?;
    let id = store.make(level, edges.as_slice())?;
    results.rooms.give(Room { parts, edges })?;
    Ok(id)
}

/// An edge for each part, to what comes of its nodes, which stand at the level; in the room of an empty vector.
#[cycle(walk)]
fn edges<O: Operation>(
    alloc: Global,
    operation: &O,
    store: &mut Store,
    results: &mut Results,
    level: &[u8],
    parts: &[Part],
    room: Vec<Edge>,
) -> Result<Vec<Edge>, Memory>
    requires suits { O.suits operation.now store.old }
    requires results { AreResults (O.combined operation.now) store.old results.old }
    requires level { IsLevel level.now }
    requires left { LeadTo store.old level.now (map to_left parts.now) }
    requires right { LeadTo store.old level.now (map to_right parts.now) }
    requires empty { room.items ≡ [] }
    ensures applied { IfOk result (λ edges. AllZip (IsAppliedPart (O.combined operation.now) store.new) parts.now edges.items) }
    ensures earlier { KeepsPairs results.old results.new }
    ensures results { AreResults (O.combined operation.now) store.new results.new }
    ensures grows { Grows store.old store.new }
{
    let mut edges = room;
    for part in parts {
        let pair = Pair {
            left: part.left,
            right: part.right,
        };
        let to = applied(alloc, operation, store, results, level, pair)?;
        edges.push(Edge { hi: part.hi, to })?;
    }
    Ok(edges)
}

/// What comes of two leaves.
fn leaf<O: Operation>(operation: &O, store: &mut Store, pair: Pair) -> Result<NodeId, Memory>
    requires { AreAt store.old [] pair }
    ensures applied { IfOk result (λ id. IsApplied (O.combined operation.now) store.new pair id) }
    ensures grows { Grows store.old store.new }
{
    let left = store.decision(pair.left).unwrap_or(0);
    let right = store.decision(pair.right).unwrap_or(0);
    let id = store.leaf(operation.of(left, right))?;
    Ok(id)
}
