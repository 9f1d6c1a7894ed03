//! Tests of the libraries.
//!
//! Worked rows of what no command of the program reaches; the rows of commands stand in `tests/rows` and run over the built
//! program. Nothing is promised here.
//!
//! | Room | Holds |
//! |---|---|
//! | `tests/lists` | diagrams, least costs and prefix lists, covers of intervals, certificates row by row, written lists, what errors say |
//! | `tests/tables` | words that cover a word, at each of sixteen keys; steps that keep a table's answers, and redundant entries |
//! | `tests/memories` | scripts and sessions over memories of which some writes fail |
#![tactic(auto)]

#[cfg(test)]
mod tests;
