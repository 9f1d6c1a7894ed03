//! One write of an update.
use ternary_words::Entry;

/// A write: what stood in the slot before it, and what stands there behind it.
#[derive(Clone, Copy)]
pub struct Write {
    /// The slot, counted from 0.
    pub slot: u32,
    /// What stood there.
    pub before: Option<Entry>,
    /// What is put there; nothing empties the slot.
    pub entry: Option<Entry>,
}

/// What is put into a slot, or nothing to empty it.
#[derive(Clone, Copy)]
pub struct Put {
    pub slot: u32,
    pub entry: Option<Entry>,
}
