//! A span of a field, and where it leads.

use field_boxes::Span;
use node_store::NodeId;

/// A span of a field, and the node to which its values lead.
#[derive(Clone, Copy, Debug, PartialEq, Eq)]
pub struct Placed {
    pub span: Span,
    pub to: NodeId,
}

impl Default for Placed {
    fn default() -> Self {
        let span = Span { lo: 0, hi: 0 };
        Placed {
            span,
            to: NodeId(0),
        }
    }
}
