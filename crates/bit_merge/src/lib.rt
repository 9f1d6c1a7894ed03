//! Bit merging: entries of one run whose words differ in a single bit become one entry.
//!
//! A run is a longest sequence of neighbouring entries with one decision. Two entries of a run can be joined where
//! their words have `*` at the same places and differ in at most one bit; their join has `*` there. [`merge`] joins
//! pairs, always the one with the least first place and then the least second one, until no two entries can be joined.
//! The table answers as before, and needs at most as many slots.
//!
//! What is promised, of any ternary words: [`merge`] gives exactly the table that this joining leads to. Every header
//! has the answer that it had, no two entries can be joined any more, there are at most as many entries, and the table
//! is irredundant where it was. [`laws`]: no table has two merged ones.
//!
//! | Module | Holds |
//! |---|---|
//! | `table`, `runs` | the call, and the runs of a table |
//! | `merging`, `places`, `partner`, `joining` | the words of a run, their least partners, and their joins |
//! | `laws` | laws of the definitions |
#![tactic(auto)]

mod joining;
pub mod laws;
mod merging;
mod partner;
mod places;
mod runs;
mod table;

pub use table::merge;
