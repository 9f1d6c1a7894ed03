//! A search for the claims of a proof that a list and a table decide alike, or where they first differ.
//!
//! [`find`] covers each entry by rules and by the entries before it, each rule by entries and by the rules before it, and what
//! a rule and an entry both have, where these two decide by different names and might come first on one header, by what
//! comes before both. Where nothing covers a header of these two, list and table differ there; the least such header is kept,
//! and those from it on need no cover. [`find_differences`] gives all of them, by cubes.
//!
//! ```text
//! let found = find(alloc, &list, &table, 1 << 36)?;
//! for entry in 0..found.entries.len() {
//!     .. found.entries.steps(entry) // the words of the line of this entry
//! }
//! for (number, pair) in found.pairs.iter().enumerate() {
//!     .. found.of_pairs.steps(number) // the words of the line of this pair
//! }
//! ```
//!
//! **How a cube is covered.** Of the rules and entries that meet it those that share most headers with it are tried, some at
//! once. The cube is cut at a bit that the one asks for which lacks the fewest bits of it, and so on with both halves, until
//! each part lies in one of them. Most claims take one step, since one rule or one entry has the whole cube.
//!
//! **How few pairs are open.** A claim of entry j that names no rule from i on closes all pairs of the entry with these rules;
//! so claims that leave many pairs open are made anew with as few of the first rules, or of the first entries, as do.
//!
//! Its time is near to linear in the words of ordinary lists and tables. Whether words cover a word is hard in general, so
//! both calls take a bound of the words that are looked at, and hand over what they have when it is met.
//!
//! What is promised: that every call is safe and returns, whatever it is given. Nothing is promised of what comes out:
//! whoever uses it checks it.
//!
//! | Module | Holds |
//! |---|---|
//! | `finding`, `differences` | the two calls |
//! | `search`, `claiming`, `claims`, `tightening` | claims of entries and rules, and how far they reach |
//! | `open_pairs`, `pair_covers` | the pairs that they leave open, and covers of these |
//! | `cutting`, `tasks`, `gathering`, `candidates`, `covers` | how a cube is covered, and by what |
//! | `sides`, `ports`, `index`, `level`, `leads`, `run` | list and table as they are searched, and which words meet a cube |
//! | `effort` | how much is tried |
#![tactic(auto)]

mod candidates;
mod claiming;
mod claims;
mod covers;
mod cutting;
mod differences;
mod effort;
mod finding;
mod gathering;
mod index;
mod leads;
mod level;
mod open_pairs;
mod pair_covers;
mod ports;
mod run;
mod search;
mod sides;
mod tasks;
mod tightening;

pub use covers::Covers;
pub use differences::{Difference, Differences, find_differences};
pub use finding::{Found, Outcome, find};
