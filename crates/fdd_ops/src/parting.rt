//! The first value at which two nodes of one field lead apart.
//!
//! The edges of a node rise, and neighbouring edges lead apart. So two lists of edges lead alike just as
//! far as their equal fronts reach. The first edges that are not equal lead apart at once, or to one
//! child: then the one that ends sooner is followed by an edge that leads elsewhere.
ghost use Rattle.std.specs.Prelude.{◌≡◌, ◌≢◌};
ghost use Rattle.node_store.specs.Levels.{HasField};
ghost use Rattle.node_store.specs.Diagram.{level_of};
ghost use Rattle.fdd_ops.specs.Parting.{IsParting};

use node_store::{NodeId, Store};

/// A value, and the children to which it leads from two nodes of one field.
#[derive(Clone, Copy)]
pub(crate) struct Parting {
    pub value: u32,
    pub left: NodeId,
    pub right: NodeId,
}

/// The first value at which two different nodes of one field lead apart.
pub(crate) fn first_parting(store: &Store, a: NodeId, b: NodeId) -> Parting
    requires inner { HasField (level_of store.now a.0) }
    requires level { level_of store.now b.0 ≡ level_of store.now a.0 }
    requires differ { a.0 ≢ b.0 }
    ensures { IsParting store.now a.0 b.0 result }
{
    store.same_answers();
    let mut left = store.edges(a);
    let mut right = store.edges(b);
    let mut start = 0;
    while left[0] == right[0] {
        start = left[0].hi + 1;
        left = &left[1..];
        right = &right[1..];
    }
    let (left_edge, right_edge) = (left[0], right[0]);
    if left_edge.to != right_edge.to {
        Parting {
            value: start,
            left: left_edge.to,
            right: right_edge.to,
        }
    } else if left_edge.hi < right_edge.hi {
        Parting {
            value: left_edge.hi + 1,
            left: left[1].to,
            right: right_edge.to,
        }
    } else {
        Parting {
            value: right_edge.hi + 1,
            left: left_edge.to,
            right: right[1].to,
        }
    }
}
