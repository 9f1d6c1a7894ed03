//! What calls end with where memory or an outside object fails, and how much is taken at most.
//!
//! ```text
//! fn copy(alloc: Global, rules: &[Rule]) -> Result<Vec<Rule>, Memory>
//! ```
//!
//! [`Memory`] says that memory was refused, and no clause says when; [`Failed`] says that a call on an outside object
//! failed, and such an object counts its faults. `specs/Counts.antt` says how a count rises: by one, up to its type's
//! last value.
//!
//! | Module | Holds |
//! |---|---|
//! | `failure` | the two errors |
//! | `limits` | how many bytes, rules and entries are taken at most, and the greatest value of each field |
#![tactic(auto)]

mod failure;
pub mod limits;

pub use failure::{Failed, Memory};
