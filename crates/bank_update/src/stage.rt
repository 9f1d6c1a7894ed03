//! How far a swap is.

/// How far a swap is.
#[derive(Clone, Copy, Debug, PartialEq, Eq)]
pub struct Stage {
    /// How many writes are done.
    pub done: u64,
    /// How many writes the whole swap has: as many as both tables have entries.
    pub total: u64,
    /// Whether the swap goes back to the old table.
    pub back: bool,
}
