//! What a valid proof shows.

use field_boxes::Header;

/// The least header on which list and table give other names, and the numbers of these: of a name of the list, and of one of
/// the table, each 0 for none.
#[derive(Clone, Copy, Debug, PartialEq, Eq)]
pub struct Difference {
    pub header: Header,
    pub left: u32,
    pub right: u32,
}

/// What list and table have to do with one another.
#[derive(Clone, Copy, Debug, PartialEq, Eq)]
pub enum Shown {
    /// They decide every header alike, by name.
    Equal,
    /// They differ, and this is where first.
    Differ(Difference),
}

/// What a valid proof shows, and how many pairs it has.
#[derive(Clone, Copy, Debug, PartialEq, Eq)]
pub struct Valid {
    pub shown: Shown,
    pub pairs: u64,
}
