//! The sizes of tables and memories.
ghost use Rattle.std.specs.Prelude.{◌≤◌};
ghost use Rattle.razor_limits.specs.declared.limits.TheConstants.{MOST_ENTRIES};

use ternary_words::{Limit, SlotWidth};

/// The greatest number of entries of a table, and the width of its slots.
#[derive(Clone, Copy, Debug, PartialEq, Eq)]
pub struct Sizes {
    pub limit: Limit,
    pub slot: SlotWidth,
}

/// How many slots a memory has, 1 to 262,144.
#[derive(Clone, Copy, Debug, PartialEq, Eq)]
pub struct Slots {
    pub count: u32,
    pub ghost some: { 1 ≤ count },
    pub ghost few: { count ≤ MOST_ENTRIES },
}
