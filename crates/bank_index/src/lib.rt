//! A simulated ternary memory with an index of its slots, for many lookups in a large table.
//!
//! A [`Bank`](tcam_sim::Bank) answers a header by a pass through all of its slots. An [`IndexedBank`] holds such a bank
//! and a tree over the bits of headers: an inner node leads on by one bit, a leaf lists the slots whose words may match
//! where that many bits are known, and a slot whose word has `*` at the bit of a node stands on both sides.
//!
//! ```text
//! let bank = IndexedBank::loaded(alloc, &table)?;
//! let found = bank.look(&header);
//! ```
//!
//! What is promised:
//!
//! - [`IndexedBank`] is a `Device` that never fails: a lookup gives the least slot whose word matches, as that of any
//!   other device, whatever the words are; and a `set` changes one slot alone.
//! - The bank of [`IndexedBank::loaded`] holds the table's entries in its first slots, and has as many slots as the
//!   table has entries, and at least one.
//!
//! The choice of bits is free: the proof asks only that each slot whose word may match stands on the side to which a
//! header's bit leads, in the order of the slots. No clause speaks of time or memory. A leaf has 24 slots or so where
//! words differ, and all leaves together have at most twice as many slots as there are entries; where no bit parts
//! a node's slots well, the whole bank is looked through, eight slots at once. A table of fewer than 256 entries gets
//! no index, and a `set` gives the index up.
//!
//! | Module | Holds |
//! |---|---|
//! | `indexed_bank` | a bank with its index, as a device |
//! | `index`, `node` | the entries and the tree over them, and the way down |
//! | `growing`, `parting`, `sides` | the tree grown, and its slots parted by a bit |
//! | `choosing`, `tally` | the choice of bits, of which no proof speaks |
//! | `bit` | the bits of a header and of a word |
#![tactic(auto)]

mod bit;
mod choosing;
mod growing;
mod index;
mod indexed_bank;
mod node;
mod parting;
mod sides;
mod tally;

pub use indexed_bank::IndexedBank;
