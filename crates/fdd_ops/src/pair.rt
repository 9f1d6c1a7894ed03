//! Two nodes of which one is held against the other.

use node_store::NodeId;

/// Two nodes of one level: one that tells which headers are meant, and one that decides them.
#[derive(Clone, Copy, Debug, PartialEq, Eq, Hash)]
pub(crate) struct Pair {
    pub which: NodeId,
    pub answers: NodeId,
}
