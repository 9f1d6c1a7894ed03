//! Entries of two tables that share a slot.

/// The places of an old and of a new entry, counted from 0, which share a slot.
#[derive(Clone, Copy)]
pub(crate) struct Pair {
    pub(crate) old: usize,
    pub(crate) new: usize,
}

/// A pair, and the link of the next pair behind it, if there is one.
#[derive(Clone, Copy)]
pub(crate) struct Link {
    pub(crate) pair: Pair,
    pub(crate) behind: Option<usize>,
}
