//! Nodes of protocols.
ghost use Rattle.std.specs.Prelude.{◌≡◌, ◌<◌, length};
ghost use Rattle.node_store.specs.Diagram.{level_of};

use node_store::{Edge, NodeId, Store, laws};
use std::process::Abort;
use std::test::Fail;

/// The number is that of a node of the level.
pub(super) fn expect_level(rt: &impl Abort, store: &Store, id: NodeId, level: &[u8])
    ensures number { id.0 < length store.now }
    ensures level { level_of store.now id.0 ≡ level.now }
{
    assert!(rt; (id.0 as usize) < store.count());
    assert_eq!(rt; store.level(id), level);
}

/// A protocol node with three edges, which end at these values and at 255.
pub(super) fn protocols(
    rt: &impl Abort,
    store: &mut Store,
    ends: [u32; 2],
    to: [NodeId; 3],
) -> Result<NodeId, Fail> {
    let [first, second] = ends;
    let [low, middle, high] = to;
    assert!(rt; first < second && second < 255);
    expect_level(rt, store, low, &[]);
    expect_level(rt, store, middle, &[]);
    expect_level(rt, store, high, &[]);
    let edges = [
        Edge { hi: first, to: low },
        Edge {
            hi: second,
            to: middle,
        },
        Edge { hi: 255, to: high },
    ];
    laws::edges_in_turn();
    Ok(store.make(&[4], &edges)?)
}
