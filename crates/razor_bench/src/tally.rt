//! What can be told of a diagram.
ghost use Rattle.std.specs.Prelude.{◌≡◌, ◌≤◌, ◌<◌, length, IfOk};
ghost use Rattle.field_boxes.specs.Headline.Fields.{stated};
ghost use Rattle.node_store.specs.Diagram.{level_of};

use anyhow::{Context, Result, anyhow};
use fdd_build::build;
use field_boxes::{Header, Rule, Span};
use node_store::{NodeId, Store, stated_order};
use std::alloc::Global;

/// A diagram in numbers, for a comparison with another program.
#[derive(Clone, Copy, Debug, PartialEq, Eq)]
pub struct Tally {
    /// The nodes that were made.
    pub nodes: usize,
    /// The nodes of the diagram itself.
    pub reached: usize,
    /// Of the answers at the least and at the greatest header of each rule.
    pub checksum: u64,
}

impl Tally {
    /// Builds the diagram of the rules in a store of its own.
    pub fn of(alloc: Global, rules: &[Rule]) -> Result<Tally>
        ensures { IfOk result (λ tally. tally.reached ≤ tally.nodes) }
    {
        let mut store = Store::new(alloc);
        let root = build(alloc, &mut store, &stated_order(), rules).map_err(|_refused| anyhow!(
            "out of memory"
        ))?;
        Ok(Tally {
            nodes: store.count(),
            reached: reached(alloc, &store, root)?,
            checksum: checksum(&store, root, rules)?,
        })
    }
}

/// How many nodes the diagram under the root has.
fn reached(alloc: Global, store: &Store, root: NodeId) -> Result<usize>
    requires { root.0 < length store.now }
    ensures { IfOk result (λ count. count ≤ length store.now) }
{
    let mut reached = vec![in alloc; false; store.count()]?;
    reached[root.0 as usize] = true;
    let count = u32::try_from(store.count())?;
    // Edges lead to smaller numbers, so a node comes after all that lead to it.
    for number in (0..count).rev() {
        if reached[number as usize] {
            reach(store, NodeId(number), &mut reached);
        }
    }
    Ok(reached.iter().filter(|&&is| is).count())
}

/// Marks the nodes to which the node's edges lead; a leaf has none.
fn reach(store: &Store, id: NodeId, reached: &mut [bool])
    requires id { id.0 < length store.now }
    requires all { length reached.old ≡ length store.now }
{
    if store.decision(id).is_some() {
        return;
    }
    for edge in store.edges(id) {
        reached[edge.to.0 as usize] = true;
    }
}

/// The checksum of the answers at the least and at the greatest header of each rule.
fn checksum(store: &Store, root: NodeId, rules: &[Rule]) -> Result<u64>
    requires { level_of store.now root.0 ≡ stated }
{
    let mut checksum = 0u64;
    for rule in rules {
        let sets = rule.sets();
        checksum = with_answer(store, root, sets.map(least), checksum)?;
        checksum = with_answer(store, root, sets.map(greatest), checksum)?;
    }
    Ok(checksum)
}

/// The least value of the set, or 0 where it has none.
pub fn least(set: &[Span]) -> u32 {
    set.first().map_or(0, |span| span.lo)
}

/// The greatest value of the set, or 0 where it has none.
pub fn greatest(set: &[Span]) -> u32 {
    set.last().map_or(0, |span| span.hi)
}

/// The checksum with one more answer.
fn with_answer(store: &Store, root: NodeId, values: [u32; 5], checksum: u64) -> Result<u64>
    requires { level_of store.now root.0 ≡ stated }
{
    let header = Header::new(values).context("a rule that leaves its field")?;
    let answer = store.answer(root, &header);
    Ok(checksum.wrapping_mul(31).wrapping_add(u64::from(answer)))
}
