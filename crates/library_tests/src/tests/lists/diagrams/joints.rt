//! The worked joint split of two protocol nodes.
use super::nodes::{expect_level, protocols};
use fdd_ops::joint;
use node_store::{NodeId, Store};
use std::process::Abort;
use std::test::Fail;

/// The two protocol nodes have this joint split.
fn expect_joint<R: Abort + AllocGlobal>(
    rt: &R,
    store: &Store,
    nodes: [NodeId; 2],
    want: &[(u32, NodeId, NodeId)],
) -> Result<(), Fail> {
    let [left, right] = nodes;
    expect_level(rt, store, left, &[4]);
    expect_level(rt, store, right, &[4]);
    let edges = joint(rt.alloc(), store, left, right)?;
    assert_eq!(rt; edges.len(), want.len());
    for (edge, (hi, left, right)) in edges.iter().zip(want) {
        assert!(rt; edge.hi == *hi && edge.left == *left && edge.right == *right);
    }
    Ok(())
}

#[test]
fn edges_end_where_a_child_changes(rt: HostRuntime) -> Result<(), Fail> {
    let mut store = Store::new(rt.alloc());
    let a = store.leaf(0)?;
    let b = store.leaf(1)?;
    let six = protocols(&rt, &mut store, [5, 6], [a, b, a])?;
    let high = protocols(&rt, &mut store, [5, 9], [a, a, b])?;
    let both = [(5, a, a), (6, b, a), (9, a, a), (255, a, b)];
    expect_joint(&rt, &store, [six, high], &both)?;
    let back = [(5, a, a), (6, a, b), (9, a, a), (255, b, a)];
    expect_joint(&rt, &store, [high, six], &back)?;
    expect_joint(&rt, &store, [high, high], &[(9, a, a), (255, b, b)])
}
