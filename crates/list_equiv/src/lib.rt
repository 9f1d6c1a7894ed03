//! Whether two filter lists are equal.
//!
//! Two lists are equal if they decide every header alike, by the names of their decisions, whatever rules they say it
//! with. Where they aren't, the least header on which they differ shows it.
//!
//! Each list numbers its names by itself, so both are given common numbers first. Then the diagram of each is built in
//! one store, where one function has one node, and the two nodes are compared.
//!
//! ```text
//! match equal(alloc, &left, &right)? {
//!     Verdict::Equal => { /* no header tells them apart */ }
//!     Verdict::Differ { header, left, right } => { /* the first that does, and its two decisions */ }
//! }
//! ```
//!
//! What is promised: [`equal`] answers `Equal` exactly where the lists decide every header alike by name, whatever
//! numbers the names have; else the least header on which they differ, and each list's decision there by its own
//! number, 0 for none. [`compare`] does the same of rules and names that are given one by one. `specs/Verdict.antt`
//! says what each verdict means.
//!
//! | Module | Holds |
//! |---|---|
//! | `verdict`, `apart` | the comparison, and the first header on which two sides differ |
//! | `renumbering`, `decision` | common numbers for the names, and what rules decide on one header |
#![tactic(auto)]

mod apart;
mod decision;
mod renumbering;
mod verdict;

pub use verdict::{Verdict, compare, equal};
