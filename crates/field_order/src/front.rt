//! A node with another field of its level in front.
ghost use Rattle.std.specs.Prelude.{◌≡◌, ◌∷◌, IfOk};
ghost use Rattle.std.specs.List.{AllZip};
ghost use Rattle.node_store.specs.Levels.{HasField, IsLevel, next};
ghost use Rattle.node_store.specs.Diagram.{level_of, edges_of};
ghost use Rattle.node_store.specs.Store.{Grows};
ghost use Rattle.field_boxes.specs.Orders.{AreDistinct, Has};
ghost use Rattle.field_order.specs.Fronts.{without, IsFront, IsFrontEdge, AreFronts};

use crate::fronts::{Asked, Fronts};
use crate::row::Edges;
use crate::turning::rows;
use node_store::{Edge, NodeId, Store};
use razor_limits::Memory;
use smallvec::SmallVec;
use std::alloc::Global;

/// The fields of a level.
pub(crate) type Fields = SmallVec<u8, 5>;

/// The node that answers as this one does, and reads the field first and the others in the order of the level.
#[cycle(fronting)]
pub(crate) fn front(
    alloc: Global,
    store: &mut Store,
    fronts: &mut Fronts,
    level: &[u8],
    id: NodeId,
    field: u8,
) -> Result<NodeId, Memory>
    requires level { IsLevel level.now }
    requires apart { AreDistinct level.now }
    requires at { level_of store.old id.0 ≡ level.now }
    requires has { Has field level.now }
    requires fronts { AreFronts store.old fronts.old }
    ensures front { IfOk result (λ front. IsFront store.new id.0 field front.0) }
    ensures fronts { AreFronts store.new fronts.new }
    ensures grows { Grows store.old store.new }
{
    let first = level[0];
    if first == field {
        return Ok(id);
    }
    let asked = Asked { id, field };
    if let Some(known) = fronts.get(asked) {
        return Ok(known);
    }
    let made = crossed(alloc, store, fronts, level, id, field)?;
    fronts.keep(asked, made)?;
    Ok(made)
}

/// The same, where the node reads another field first: its own comes second.
#[cycle(fronting)]
fn crossed(
    alloc: Global,
    store: &mut Store,
    fronts: &mut Fronts,
    level: &[u8],
    id: NodeId,
    field: u8,
) -> Result<NodeId, Memory>
    requires level { IsLevel level.now }
    requires apart { AreDistinct level.now }
    requires at { level_of store.old id.0 ≡ level.now }
    requires has { Has field (next level.now) }
    requires other { HasField level.now }
    requires fronts { AreFronts store.old fronts.old }
    ensures front { IfOk result (λ front. IsFront store.new id.0 field front.0) }
    ensures fronts { AreFronts store.new fronts.new }
    ensures grows { Grows store.old store.new }
{
    store.same_answers();
    let edges = front_edges(alloc, store, fronts, &level[1..], id, field)?;
    let lower = without(alloc, level, field)?;
    let upper = before(alloc, field, lower.as_slice())?;
    let rows = rows(alloc, store, lower.as_slice(), field, edges.as_slice())?;
    let made = store.make(upper.as_slice(), rows.as_slice())?;
    Ok(made)
}

/// The edges of a node to the fronts of its children, which stand at the level.
#[cycle(fronting)]
pub(crate) fn front_edges(
    alloc: Global,
    store: &mut Store,
    fronts: &mut Fronts,
    level: &[u8],
    id: NodeId,
    field: u8,
) -> Result<Edges, Memory>
    requires level { IsLevel level.now }
    requires apart { AreDistinct level.now }
    requires inner { HasField (level_of store.old id.0) }
    requires at { next (level_of store.old id.0) ≡ level.now }
    requires has { Has field level.now }
    requires fronts { AreFronts store.old fronts.old }
    ensures edges { IfOk result (λ edges. AllZip (IsFrontEdge store.new field) (edges_of store.old id.0) edges.items) }
    ensures fronts { AreFronts store.new fronts.new }
    ensures grows { Grows store.old store.new }
{
    store.same_answers();
    let edges = copied(alloc, store.edges(id))?;
    let mut fronted = SmallVec::new(alloc);
    for edge in edges.as_slice() {
        let to = front(alloc, store, fronts, level, edge.to, field)?;
        fronted.push(Edge { hi: edge.hi, to })?;
    }
    Ok(fronted)
}

/// The edges once more.
pub(crate) fn copied(alloc: Global, edges: &[Edge]) -> Result<Edges, Memory>
    ensures { IfOk result (λ copy. copy.items ≡ edges.now) }
{
    let copy = SmallVec::from_slice(alloc, edges)?;
    Ok(copy)
}

/// The fields of the level without this one.
pub(crate) fn without(alloc: Global, level: &[u8], field: u8) -> Result<Fields, Memory>
    ensures { IfOk result (λ fields. fields.items ≡ without field level.now) }
{
    let mut fields = SmallVec::new(alloc);
    for other in level {
        if *other != field {
            fields.push(*other)?;
        }
    }
    Ok(fields)
}

/// The field, and these behind it.
pub(crate) fn before(alloc: Global, field: u8, level: &[u8]) -> Result<Fields, Memory>
    ensures { IfOk result (λ fields. fields.items ≡ field ∷ level.now) }
{
    let mut fields = SmallVec::new(alloc);
    fields.push(field)?;
    fields.extend_from_slice(level)?;
    Ok(fields)
}
