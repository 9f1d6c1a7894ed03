//! Calls of the program over inputs and outputs in memory that fail or are full: the tests of the top call.
//!
//! Nothing is promised here: the crate holds tests with a fault at each of the first reads and writes, and [`Setting`], what
//! a test calls the program on. What the program does otherwise is shown by rows over files (`tests/rows`).
//!
//! | Room | Holds |
//! |---|---|
//! | `setting` | inputs, outputs and words of a call |
#![tactic(auto)]

mod setting;
#[cfg(test)]
mod tests;

pub use setting::{Setting, calm};
