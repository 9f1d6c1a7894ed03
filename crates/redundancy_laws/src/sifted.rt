//! What is kept of a block.

use node_store::NodeId;

/// Which rows of a block are kept, and what each context answers with these in front.
#[derive(Drop)]
pub struct Sifted {
    pub kept: Vec<bool>,
    pub after: Vec<NodeId>,
}
