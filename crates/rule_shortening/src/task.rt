//! A list whose short table is wanted.

use field_boxes::{Decisions, Rule};
use ternary_words::{Limit, SlotWidth};

/// A list, how many entries its table may have, and how wide the table's slots are.
#[derive(Clone, Copy)]
pub(crate) struct Task<'a> {
    pub rules: &'a [Rule],
    pub names: &'a Decisions,
    pub limit: Limit,
    pub slot: SlotWidth,
}
