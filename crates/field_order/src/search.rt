//! What the nodes of a diagram cost in any order of their fields.
ghost use Rattle.std.specs.Prelude.{◌≡◌, ◌<◌, ◌≤◌, ◌+◌, ◌-◌, ◌^◌, ◌∷◌, ℕ, List, None, Some, length, slice_get, All, IfOk};
ghost use Rattle.std.specs.Bool.{OnTrue};
ghost use Rattle.field_boxes.specs.Orders.{AreDistinct, Has};
ghost use Rattle.node_store.specs.declared.edge.Edge.{Edge};
ghost use Rattle.node_store.specs.Edges.{AreFull};
ghost use Rattle.node_store.specs.Levels.{HasField, IsLevel, next, top_of};
ghost use Rattle.node_store.specs.Diagram.{level_of};
ghost use Rattle.node_store.specs.Store.{Grows, LeadTo};
ghost use Rattle.field_order.specs.Fronts.{AreFronts, without};
ghost use Rattle.field_order.specs.Worth.{AreAbove, AreFields, AreWeights, AreWorths, IsAbove, IsRearranged, IsWorth, Settles, digits};

use crate::front::{copied, front, front_edges, without};
use crate::fronts::{Asked, Fronts};
use crate::labels::Labels;
use crate::order::{order_without, unit};
use crate::turning::samples;
use crate::worth::{Valued, Worth, Worths};
use field_boxes::{greatest, width};
use node_store::{Edge, NodeId, Store};
use prefix_min::Costing;
use razor_limits::Memory;
use std::alloc::Global;

/// How many values of a field are tried before many of them are.
const TRIED: u64 = 8;

/// The most values of a field that are tried.
const MOST: u64 = 1024;

/// Nodes of fewer edges are found out by their children.
const FEW: usize = 16;

/// What the node costs, where its fields are read in the order, or that it costs more than the cap.
#[cycle(costing)]
pub(crate) fn worth(
    alloc: Global,
    store: &mut Store,
    fronts: &mut Fronts,
    worths: &mut Worths,
    costing: &mut Costing,
    level: &[u8],
    id: NodeId,
    order: u32,
    cap: u128,
) -> Result<Worth, Memory>
    requires level { IsLevel level.now }
    requires fields { AreFields store.old level.now (digits (length level.now) order) id.0 }
    requires fronts { AreFronts store.old fronts.old }
    requires worths { AreWorths store.old worths.old }
    ensures worth { IfOk result (λ worth. IsWorth store.new (digits (length level.now) order) id.0 worth) }
    ensures settles { IfOk result (λ worth. Settles cap worth) }
    ensures fronts { AreFronts store.new fronts.new }
    ensures worths { AreWorths store.new worths.new }
    ensures grows { Grows store.old store.new }
{
    if level.is_empty() {
        return Ok(Worth::Is(1));
    }
    let key = Valued { id, order };
    if let Some(known) = worths.get(key, cap) {
        return Ok(known);
    }
    let found = tried(alloc, store, fronts, worths, costing, level, id, order, cap)?;
    worths.keep(key, found)?;
    Ok(found)
}

/// The same of a node that isn't a leaf. Most of those that cost far more than the cap are found out by some of their parts.
#[cycle(costing)]
fn tried(
    alloc: Global,
    store: &mut Store,
    fronts: &mut Fronts,
    worths: &mut Worths,
    costing: &mut Costing,
    level: &[u8],
    id: NodeId,
    order: u32,
    cap: u128,
) -> Result<Worth, Memory>
    requires level { IsLevel level.now }
    requires some { HasField level.now }
    requires fields { AreFields store.old level.now (digits (length level.now) order) id.0 }
    requires fronts { AreFronts store.old fronts.old }
    requires worths { AreWorths store.old worths.old }
    ensures worth { IfOk result (λ worth. IsWorth store.new (digits (length level.now) order) id.0 worth) }
    ensures settles { IfOk result (λ worth. Settles cap worth) }
    ensures fronts { AreFronts store.new fronts.new }
    ensures worths { AreWorths store.new worths.new }
    ensures grows { Grows store.old store.new }
{
    let above = is_above(alloc, store, fronts, worths, costing, level, id, order, cap)?;
    if above {
        return Ok(Worth::Above(cap));
    }
    worked_out(alloc, store, fronts, worths, costing, level, id, order, cap)
}

/// Whether the node is found to cost more than the cap, before the order's first field is put in front of it.
///
/// A node of few edges is found out by a child, and one of many by its parts. Nothing is asked where the field
/// stands in front, or was put there before.
#[cycle(costing)]
fn is_above(
    alloc: Global,
    store: &mut Store,
    fronts: &mut Fronts,
    worths: &mut Worths,
    costing: &mut Costing,
    level: &[u8],
    id: NodeId,
    order: u32,
    cap: u128,
) -> Result<bool, Memory>
    requires level { IsLevel level.now }
    requires some { HasField level.now }
    requires fields { AreFields store.old level.now (digits (length level.now) order) id.0 }
    requires fronts { AreFronts store.old fronts.old }
    requires worths { AreWorths store.old worths.old }
    ensures above { IfOk result (λ b. OnTrue b (IsAbove store.new (digits (length level.now) order) cap id)) }
    ensures fronts { AreFronts store.new fronts.new }
    ensures worths { AreWorths store.new worths.new }
    ensures grows { Grows store.old store.new }
{
    let first = level[0];
    let unit = unit(level.len() - 1);
    let field = (order / unit) as u8;
    if first == field {
        return Ok(false);
    }
    if fronts.get(Asked { id, field }).is_some() {
        return Ok(false);
    }
    if store.edges(id).len() < FEW {
        return child_above(alloc, store, fronts, worths, costing, level, id, order, cap);
    }
    let next = order % unit;
    several_above(
        alloc, store, fronts, worths, costing, level, id, field, next, cap,
    )
}

/// Whether a child of the node costs more than the cap, where its fields are read in the same order: then the node does too.
#[cycle(costing)]
fn child_above(
    alloc: Global,
    store: &mut Store,
    fronts: &mut Fronts,
    worths: &mut Worths,
    costing: &mut Costing,
    level: &[u8],
    id: NodeId,
    order: u32,
    cap: u128,
) -> Result<bool, Memory>
    requires level { IsLevel level.now }
    requires some { HasField level.now }
    requires fields { AreFields store.old level.now (digits (length level.now) order) id.0 }
    requires fronts { AreFronts store.old fronts.old }
    requires worths { AreWorths store.old worths.old }
    ensures above { IfOk result (λ b. OnTrue b (IsAbove store.new (digits (length level.now) order) cap id)) }
    ensures fronts { AreFronts store.new fronts.new }
    ensures worths { AreWorths store.new worths.new }
    ensures grows { Grows store.old store.new }
{
    let below = order_without(order, level.len(), level[0]);
    store.same_answers();
    let edges = copied(alloc, store.edges(id))?;
    let rest = &level[1..];
    let seen = edges.as_slice();
    let above = one_above(
        alloc, store, fronts, worths, costing, rest, seen, below, cap,
    )?;
    store.same_answers();
    Ok(above)
}

/// Whether one of the nodes of a level costs more than the cap.
#[cycle(costing)]
fn one_above(
    alloc: Global,
    store: &mut Store,
    fronts: &mut Fronts,
    worths: &mut Worths,
    costing: &mut Costing,
    level: &[u8],
    edges: &[Edge],
    order: u32,
    cap: u128,
) -> Result<bool, Memory>
    requires level { IsLevel level.now }
    requires fields { All (λ e. AreFields store.old level.now (digits (length level.now) order) e.to.0) edges.now }
    requires fronts { AreFronts store.old fronts.old }
    requires worths { AreWorths store.old worths.old }
    ensures above { IfOk result (λ b. OnTrue b ((k : ℕ) × (e : Edge) × (slice_get edges.now k ≡ Some e) × IsAbove store.new (digits (length level.now) order) cap e.to)) }
    ensures fronts { AreFronts store.new fronts.new }
    ensures worths { AreWorths store.new worths.new }
    ensures grows { Grows store.old store.new }
{
    for edge in edges {
        let found = worth(
            alloc, store, fronts, worths, costing, level, edge.to, order, cap,
        )?;
        if let Worth::Above(_least) = found {
            return Ok(true);
        }
    }
    Ok(false)
}

/// Whether parts of the node at some values of a later field of its level cost more than the cap together.
#[cycle(costing)]
fn several_above(
    alloc: Global,
    store: &mut Store,
    fronts: &mut Fronts,
    worths: &mut Worths,
    costing: &mut Costing,
    level: &[u8],
    id: NodeId,
    field: u8,
    order: u32,
    cap: u128,
) -> Result<bool, Memory>
    requires level { IsLevel level.now }
    requires some { HasField level.now }
    requires apart { AreDistinct level.now }
    requires at { level_of store.old id.0 ≡ level.now }
    requires has { Has field (next level.now) }
    requires rearranged { IsRearranged (digits (length (without field level.now)) order) (without field level.now) }
    requires fronts { AreFronts store.old fronts.old }
    requires worths { AreWorths store.old worths.old }
    ensures above { IfOk result (λ b. OnTrue b (IsAbove store.new (field ∷ digits (length (without field level.now)) order) cap id)) }
    ensures fronts { AreFronts store.new fronts.new }
    ensures worths { AreWorths store.new worths.new }
    ensures grows { Grows store.old store.new }
{
    store.same_answers();
    let edges = front_edges(alloc, store, fronts, &level[1..], id, field)?;
    let rest = without(alloc, level, field)?;
    let lower = rest.as_slice();
    let seen = edges.as_slice();
    let above = parts_above(
        alloc, store, fronts, worths, costing, lower, field, seen, order, cap,
    )?;
    store.same_answers();
    Ok(above)
}

/// Whether parts at some values of the field cost more than the cap together.
///
/// A few of them tell how many are to be tried, and whether it is worth it.
#[cycle(costing)]
fn parts_above(
    alloc: Global,
    store: &mut Store,
    fronts: &mut Fronts,
    worths: &mut Worths,
    costing: &mut Costing,
    level: &[u8],
    field: u8,
    edges: &[Edge],
    order: u32,
    cap: u128,
) -> Result<bool, Memory>
    requires level { HasField level.now }
    requires apart { AreDistinct level.now }
    requires rearranged { IsRearranged (digits (length level.now) order) level.now }
    requires field { HasField (field ∷ next level.now) }
    requires full { AreFull (top_of level.now) edges.now }
    requires nodes { LeadTo store.old (field ∷ next level.now) edges.now }
    requires fronts { AreFronts store.old fronts.old }
    requires worths { AreWorths store.old worths.old }
    ensures above { IfOk result (λ b. OnTrue b (AreAbove store.old store.new level.now field edges.now (digits (length level.now) order) cap)) }
    ensures fronts { AreFronts store.new fronts.new }
    ensures worths { AreWorths store.new worths.new }
    ensures grows { Grows store.old store.new }
{
    let top = u64::from(greatest(usize::from(field)));
    let apart = top / TRIED + 1;
    let few = sampled(
        alloc, store, fronts, worths, costing, level, field, edges, apart, order, cap,
    )?;
    let Some(weights) = few else {
        return Ok(true);
    };
    let enough = enough(weights.as_slice(), cap);
    if enough > MOST {
        return Ok(false);
    }
    let apart = top / enough + 1;
    let many = sampled(
        alloc, store, fronts, worths, costing, level, field, edges, apart, order, cap,
    )?;
    match many {
        None => Ok(true),
        Some(_weights) => Ok(false),
    }
}

/// What parts at some values of the field cost, or none where they cost more than the cap together.
#[cycle(costing)]
fn sampled(
    alloc: Global,
    store: &mut Store,
    fronts: &mut Fronts,
    worths: &mut Worths,
    costing: &mut Costing,
    level: &[u8],
    field: u8,
    edges: &[Edge],
    apart: u64,
    order: u32,
    cap: u128,
) -> Result<Option<Vec<u128>>, Memory>
    requires level { HasField level.now }
    requires apart { AreDistinct level.now }
    requires rearranged { IsRearranged (digits (length level.now) order) level.now }
    requires field { HasField (field ∷ next level.now) }
    requires full { AreFull (top_of level.now) edges.now }
    requires nodes { LeadTo store.old (field ∷ next level.now) edges.now }
    requires fronts { AreFronts store.old fronts.old }
    requires worths { AreWorths store.old worths.old }
    ensures above { IfOk result (λ weights. weights ≡ None → AreAbove store.old store.new level.now field edges.now (digits (length level.now) order) cap) }
    ensures fronts { AreFronts store.new fronts.new }
    ensures worths { AreWorths store.new worths.new }
    ensures grows { Grows store.old store.new }
{
    let samples = samples(alloc, store, level, field, edges, apart)?;
    let labels = Labels::of(alloc, samples.as_slice())?;
    let nodes = labels.children.as_slice();
    let weights = weights(
        alloc, store, fronts, worths, costing, level, nodes, order, cap,
    )?;
    Ok(weights)
}

/// How many values are likely to cost more than the cap, by what those that were tried cost.
fn enough(weights: &[u128], cap: u128) -> u64
    ensures { 0 < result }
{
    let sum = weights
        .iter()
        .fold(0u128, |sum, weight| sum.saturating_add(*weight));
    let each = sum / u128::from(TRIED);
    let count = cap / each.max(1);
    let likely = count.min(u128::from(MOST)) as u64;
    likely + likely / 4 + TRIED
}

/// The same of a node that isn't a leaf, by what its parts cost in the rest of the order.
#[cycle(costing)]
fn worked_out(
    alloc: Global,
    store: &mut Store,
    fronts: &mut Fronts,
    worths: &mut Worths,
    costing: &mut Costing,
    level: &[u8],
    id: NodeId,
    order: u32,
    cap: u128,
) -> Result<Worth, Memory>
    requires level { IsLevel level.now }
    requires some { HasField level.now }
    requires fields { AreFields store.old level.now (digits (length level.now) order) id.0 }
    requires fronts { AreFronts store.old fronts.old }
    requires worths { AreWorths store.old worths.old }
    ensures worth { IfOk result (λ worth. IsWorth store.new (digits (length level.now) order) id.0 worth) }
    ensures settles { IfOk result (λ worth. Settles cap worth) }
    ensures fronts { AreFronts store.new fronts.new }
    ensures worths { AreWorths store.new worths.new }
    ensures grows { Grows store.old store.new }
{
    let unit = unit(level.len() - 1);
    let field = (order / unit) as u8;
    let rest = without(alloc, level, field)?;
    let front = front(alloc, store, fronts, level, id, field)?;
    store.same_answers();
    let labels = Labels::of(alloc, store.edges(front))?;
    let lower = rest.as_slice();
    let nodes = labels.children.as_slice();
    let next = order % unit;
    let weights = weights(
        alloc, store, fronts, worths, costing, lower, nodes, next, cap,
    )?;
    store.same_answers();
    match weights {
        None => Ok(Worth::Above(cap)),
        Some(weights) => {
            let bits = width(usize::from(field));
            let pieces = labels.pieces.as_slice();
            let least = costing.minimum(pieces, weights.as_slice(), bits)?;
            Ok(Worth::Is(least))
        }
    }
}

/// What the nodes of a level cost, or none where they cost more than the cap together.
///
/// Each costs at least 1, so those that are left add as many at least.
#[cycle(costing)]
fn weights(
    alloc: Global,
    store: &mut Store,
    fronts: &mut Fronts,
    worths: &mut Worths,
    costing: &mut Costing,
    level: &[u8],
    nodes: &[NodeId],
    order: u32,
    cap: u128,
) -> Result<Option<Vec<u128>>, Memory>
    requires level { IsLevel level.now }
    requires fields { All (λ c. AreFields store.old level.now (digits (length level.now) order) c.0) nodes.now }
    requires fronts { AreFronts store.old fronts.old }
    requires worths { AreWorths store.old worths.old }
    ensures weights { IfOk result (λ weights. AreWeights store.new (digits (length level.now) order) nodes.now cap weights) }
    ensures fronts { AreFronts store.new fronts.new }
    ensures worths { AreWorths store.new worths.new }
    ensures grows { Grows store.old store.new }
{
    let mut weights = Vec::with_capacity(alloc, nodes.len())?;
    // What is known of all but one: those so far, and 1 of each that is left.
    let mut others = (nodes.len() as u128).saturating_sub(1);
    for node in nodes {
        if cap <= others {
            return Ok(None);
        }
        let left = cap - others;
        let found = worth(
            alloc, store, fronts, worths, costing, level, *node, order, left,
        )?;
        match found {
            Worth::Above(_least) => return Ok(None),
            Worth::Is(cost) => {
                others = others.saturating_add(cost).saturating_sub(1);
                weights.push(cost)?;
            }
        }
    }
    if cap < others {
        return Ok(None);
    }
    Ok(Some(weights))
}
