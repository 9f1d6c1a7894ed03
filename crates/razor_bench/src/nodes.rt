//! Distinct diagram nodes, made once and asked for again.
ghost use Rattle.std.specs.Prelude.{◌≡◌, ◌-◌, ◌<◌, ◌≤◌, ◌^◌, [], ◌∷◌, length, IfOk, OnOk};
ghost use Rattle.node_store.specs.Diagram.{level_of};

use crate::plan::{Plan, Protocols};
use anyhow::{Result, anyhow, ensure};
use node_store::{Edge, NodeId, Store, laws};

/// The level of the protocol alone.
const PROTOCOL: [u8; 1] = [4];

const GREATEST_PROTOCOL: u32 = 255;

/// Makes the nodes, asks for each again, and prints how many there are with a checksum of their numbers.
pub fn run(rt: &(impl Print + AllocGlobal), count: u32) -> Result<()> {
    let plan = Plan::of(count);
    let mut store = Store::new(rt.alloc());
    pass(&mut store, plan)?;
    let checksum = pass(&mut store, plan)?;
    let nodes = store.count();
    println!(rt; "nodes {nodes} checksum {checksum}")?;
    Ok(())
}

/// Asks for each node in turn, and gives the checksum of the numbers.
pub fn pass(store: &mut Store, plan: Plan) -> Result<u64>
    ensures { OnOk result (plan.nodes ≤ length store.new) }
{
    let mut checksum = 0u64;
    for place in 0..plan.nodes {
        let number = node(store, plan, place)?;
        ensure!(number.0 == place, "node {place} has another number");
        checksum = checksum.wrapping_mul(31).wrapping_add(u64::from(number.0));
    }
    Ok(checksum)
}

/// The node at the place: the leaves come first.
fn node(store: &mut Store, plan: Plan, place: u32) -> Result<NodeId>
    ensures { IfOk result (λ id. id.0 < length store.new) }
{
    if place < plan.leaves {
        return store
            .leaf(place)
            .map_err(|_refused| anyhow!("out of memory"));
    }
    protocol_node(store, Protocols::at(place - plan.leaves))
}

/// The number of the protocol node.
fn protocol_node(store: &mut Store, protocols: Protocols) -> Result<NodeId>
    requires above { 0 < protocols.middle }
    requires below { protocols.middle < 255 }
    requires outer { protocols.outer < 2 ^ 32 - 1 }
    ensures number { IfOk result (λ id. id.0 < length store.new) }
    ensures level { IfOk result (λ id. level_of store.new id.0 ≡ 4 ∷ []) }
{
    let outer = leaf(store, protocols.outer)?;
    let inner = leaf(store, protocols.outer + 1)?;
    let edges = [
        Edge {
            hi: protocols.middle - 1,
            to: outer,
        },
        Edge {
            hi: protocols.middle,
            to: inner,
        },
        Edge {
            hi: GREATEST_PROTOCOL,
            to: outer,
        },
    ];
    laws::edges_in_turn();
    store
        .make(&PROTOCOL, &edges)
        .map_err(|_refused| anyhow!("out of memory"))
}

/// The number, tested to be that of a leaf.
fn leaf(store: &Store, number: u32) -> Result<NodeId>
    ensures number { IfOk result (λ id. id.0 ≡ number) }
    ensures found { IfOk result (λ id. id.0 < length store.now) }
    ensures level { IfOk result (λ id. level_of store.now id.0 ≡ []) }
{
    let id = NodeId(number);
    ensure!((id.0 as usize) < store.count(), "no node {number}");
    ensure!(store.level(id).is_empty(), "node {number} is no leaf");
    Ok(id)
}
