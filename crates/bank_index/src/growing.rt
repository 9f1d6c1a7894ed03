//! The tree grown over the slots of a table.
ghost use Rattle.std.specs.Prelude.{◌≡◌, ℕ, suc, ◌∷◌, ◌++◌, [], IfOk, length};
ghost use Rattle.bank_index.specs.Tree.{IsGrown};

use crate::node::Node;
use crate::parting::{Parts, part};
use razor_limits::Memory;
use std::alloc::Global;
use ternary_words::Entry;

/// Adds the node behind all others, and answers its place.
fn add(nodes: &mut Vec<Node>, node: Node) -> Result<u32, Memory>
    ensures { IfOk result (λ place. (place ≡ length nodes.old.items) × (nodes.new.items ≡ nodes.old.items ++ node ∷ [])) }
{
    let Ok(place) = u32::try_from(nodes.len()) else {
        return Err(Memory);
    };
    nodes.push(node)?;
    Ok(place)
}

/// Adds a node with no node below it: a leaf, or where the slots are a good part of all, the whole.
fn add_last(nodes: &mut Vec<Node>, entries: &[Entry], slots: Vec<u32>) -> Result<u32, Memory>
    ensures { IfOk result (λ place. (steps : ℕ) → IsGrown (suc steps) nodes.old.items nodes.new.items entries.now slots.items place) }
{
    if slots.len() > entries.len() / 4 {
        add(nodes, Node::Whole)
    } else {
        add(nodes, Node::Leaf(slots))
    }
}

/// Adds the tree of the slots, of so many levels at most below its first node, and answers the place of that node.
///
/// The leaves hold no more slots together than there is room for, unless one leaf holds them all.
#[cycle(growing)]
pub(crate) fn grow(
    alloc: Global,
    nodes: &mut Vec<Node>,
    entries: &[Entry],
    slots: Vec<u32>,
    room: usize,
    levels: u32,
) -> Result<u32, Memory>
    ensures { IfOk result (λ place. IsGrown (suc levels) nodes.old.items nodes.new.items entries.now slots.items place) }
{
    if levels == 0 {
        return add_last(nodes, entries, slots);
    }
    let Some(parts) = part(alloc, entries, &slots, room)? else {
        return add_last(nodes, entries, slots);
    };
    let Parts {
        bit,
        zeros,
        ones,
        zeros_room,
        ones_room,
    } = parts;
    let zero = grow(alloc, nodes, entries, zeros, zeros_room, levels - 1)?;
    let one = grow(alloc, nodes, entries, ones, ones_room, levels - 1)?;
    add(nodes, Node::Split { bit, zero, one })
}
