//! Equal nodes have one number.
use super::nodes::{expect_level, protocols};
use node_store::{Edge, NodeId, Store};
use std::process::Abort;
use std::test::Fail;

/// Two leaves; one that is asked for again has the same number.
fn leaves(rt: &impl Abort, store: &mut Store) -> Result<[NodeId; 2], Fail> {
    let low = store.leaf(0)?;
    let high = store.leaf(1)?;
    assert_eq!(rt; store.leaf(0)?, low);
    assert_eq!(rt; store.count(), 2);
    Ok([low, high])
}

/// A node whose first two edges are one; one that is made twice has one number.
fn joined_node(
    rt: &impl Abort,
    store: &mut Store,
    [low, high]: [NodeId; 2],
) -> Result<NodeId, Fail> {
    let first = protocols(rt, store, [5, 6], [low, high, low])?;
    assert_eq!(rt; protocols(rt, store, [5, 6], [low, high, low])?, first);
    let second = protocols(rt, store, [5, 9], [low, low, high])?;
    assert_eq!(rt; store.count(), 4);
    Ok(second)
}

/// What the store has of that node, and of the leaf of the decision 0.
fn expect_made(rt: &impl Abort, store: &Store, [low, high]: [NodeId; 2], node: NodeId) {
    expect_level(rt, store, node, &[4]);
    let merged = [Edge { hi: 9, to: low }, Edge { hi: 255, to: high }];
    assert_eq!(rt; store.edges(node), merged.as_slice());
    assert_eq!(rt; store.decision(node), None);
    expect_level(rt, store, low, &[]);
    assert_eq!(rt; store.edges(low).len(), 0);
    assert_eq!(rt; store.decision(low), Some(0));
}

#[test]
fn leaves_and_nodes_have_one_number(rt: HostRuntime) -> Result<(), Fail> {
    let mut store = Store::new(rt.alloc());
    let leaves = leaves(&rt, &mut store)?;
    let node = joined_node(&rt, &mut store, leaves)?;
    expect_made(&rt, &store, leaves, node);
    Ok(())
}
