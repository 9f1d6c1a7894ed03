//! The rows of a node's prefix list.
use field_boxes::Prefix;
use node_store::NodeId;

/// A row of a node's prefix list: the values of the prefix that no earlier row holds lead to the node.
#[derive(Clone, Copy, Debug, PartialEq, Eq)]
pub struct Row {
    pub prefix: Prefix,
    pub to: NodeId,
}
