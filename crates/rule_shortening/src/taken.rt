//! The slots that a table takes in a memory.

/// The slots of a table's entries, from the first to the last, in a memory with so many slots. Nothing is promised of them.
#[derive(Drop)]
pub struct Taken {
    pub slots: Vec<u32>,
    pub count: u32,
}
