//! The nodes that answer 0 everywhere, and those that answer something everywhere.
ghost use Rattle.std.specs.Prelude.{◌≡◌, ◌≤◌, ◌<◌, length, nat_eq, IfOk};
ghost use Rattle.std.specs.Bool.{OnTrue};
ghost use Rattle.rule_audit.specs.Marks.{AnswersThroughout, AreMarks, AreRight, LeadToMarked, LeadWithin};

use node_store::{Edge, NodeId, Store};
use razor_limits::Memory;
use std::alloc::Global;

/// Marks the nodes that answer 0 for all values, or else those that answer something for all values.
///
/// Each node is worked out once, in the order of the numbers: its children come before it.
pub(crate) fn mark_all(alloc: Global, store: &Store, nothing: bool) -> Result<Vec<bool>, Memory>
    ensures { IfOk result (λ marks. AreMarks store.now nothing marks.items) }
{
    store.same_answers();
    let count = node_count(store)?;
    let mut marks = Vec::with_capacity(alloc, store.count())?;
    for number in 0..count {
        let marked = is_marked(store, marks.as_slice(), NodeId(number), nothing);
        marks.push(marked)?;
    }
    Ok(marks)
}

/// How many nodes there are, where the last number is one less.
fn node_count(store: &Store) -> Result<u32, Memory>
    ensures { IfOk result (λ count. count ≡ length store.now) }
{
    u32::try_from(store.count()).map_err(|_refused| Memory)
}

/// Whether the node is one of them, by the marks of the nodes before it.
fn is_marked(store: &Store, marks: &[bool], id: NodeId, nothing: bool) -> bool
    requires number { id.0 < length store.now }
    requires before { id.0 ≤ length marks.now }
    requires right { AreRight store.now nothing marks.now }
    ensures { OnTrue result (AnswersThroughout store.now nothing id.0) }
{
    store.same_answers();
    match store.decision(id) {
        Some(decision) => is_so(decision, nothing),
        None => are_marked(store.edges(id), marks),
    }
}

/// Whether the decision is 0, or else isn't.
fn is_so(decision: u32, nothing: bool) -> bool
    ensures { OnTrue result (nat_eq decision 0 ≡ nothing) }
{
    if nothing {
        decision == 0
    } else {
        decision != 0
    }
}

/// Whether the edges lead to marked nodes alone.
fn are_marked(edges: &[Edge], marks: &[bool]) -> bool
    requires { LeadWithin marks.now edges.now }
    ensures { OnTrue result (LeadToMarked marks.now edges.now) }
{
    for edge in edges {
        if !marks[edge.to.0 as usize] {
            return false;
        }
    }
    true
}
