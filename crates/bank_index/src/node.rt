//! Nodes of the tree.

use std::alloc::Global;

/// A node, which leads on to nodes by their places.
#[derive(Drop)]
pub(crate) enum Node {
    /// The slots that are gone through, in their order.
    Leaf(Vec<u32>),
    /// A header goes on at the second place where it has this bit, and else at the first.
    Split { bit: u32, zero: u32, one: u32 },
    /// All slots are gone through.
    Whole,
}
