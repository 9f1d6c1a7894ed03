//! The pieces of a field's values.

/// A run of neighbouring values with one label: from the end of the piece before, or 0, up to `hi`.
#[derive(Clone, Copy, Debug, PartialEq, Eq)]
pub struct Piece {
    pub hi: u32,
    pub label: u32,
}
