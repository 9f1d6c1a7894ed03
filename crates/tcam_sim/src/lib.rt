//! A simulated ternary memory: slots, each empty or an entry, and the lookup of a header in them.
//!
//! A [`Device`] is any such memory. The layers above are proved over every device.
//!
//! What is promised:
//!
//! - [`Device::set`] changes one slot alone, or fails, is counted as a fault, and changes none; either way it is one
//!   try.
//! - [`Device::look`] gives the least slot whose word matches the header, and its decision, and none exactly where no
//!   word matches.
//! - [`Bank`] never fails; [`FaultyBank`] fails exactly at the calls that were chosen.
//! - [`load`] tries one write an entry and leaves the table's entries in the first slots, or at a failure a front of
//!   them and no try after it. The bank of [`loaded`] has as many slots as the table has entries, and at least one.
//!
//! Assumed of a device from elsewhere: that it meets the trait, its count of faults and of tries among that.
//!
//! | Module | Holds |
//! |---|---|
//! | `device` | what a ternary memory does |
//! | `bank`, `faulty_bank` | a memory that never fails, and one of which chosen writes do |
//! | `search`, `lanes`, `halves`, `key` | the lookup, eight slots at once |
//! | `loading` | a table loaded into a memory |
#![tactic(auto)]

mod bank;
mod device;
mod faulty_bank;
mod halves;
mod key;
mod lanes;
mod loading;
mod search;

pub use bank::Bank;
pub use device::Device;
pub use faulty_bank::FaultyBank;
pub use loading::{load, loaded};
