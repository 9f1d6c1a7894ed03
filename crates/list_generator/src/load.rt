//! A list with headers to try it.
use field_boxes::{Header, RuleList};

/// A list, with headers to try it.
#[derive(Drop)]
pub struct Load {
    pub list: RuleList,
    pub headers: Vec<Header>,
}
