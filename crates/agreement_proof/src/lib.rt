//! Comparing a list and a table by proofs, and writing the proof.
//!
//! ```text
//! match compare(alloc, &list, &table)? {
//!     Shown::Equal => .., // they decide every header alike
//!     Shown::Differ(difference) => .., // the least header on which they don't, and what they decide there
//! }
//! let written = prove(alloc, &list, &table)?;
//! .. written.text // check_proof of agreement_check finds it valid, and gives written.valid
//! ```
//!
//! What is promised, of any ternary words:
//!
//! - [`compare`] answers exactly that, or says that memory was refused.
//! - [`prove`] writes a text that is valid, and says what it shows; or memory was refused.
//!
//! **How it goes.** A search finds the claims of a proof, and nothing is promised of it: its text is checked. Where it isn't
//! valid, a descent by halves decides what list and table have to do with one another, and the proof is completed: claims that
//! don't hold are replaced by such as name the open rule or the open entry, and each pair that is open then is covered by
//! halves.
//!
//! | Module | Holds |
//! |---|---|
//! | `comparing`, `proving` | the two calls |
//! | `searched` | the text of what a search found |
//! | `completing`, `claims`, `pairs` | the proof that is completed, and its lines |
//! | `testing` | whether a cover holds, and how far it reaches |
//! | `lines` | the parts of lines |
#![tactic(auto)]

mod claims;
mod comparing;
mod completing;
mod lines;
mod pairs;
mod proving;
mod searched;
mod testing;

pub use comparing::{compare, compare_within};
pub use proving::{Written, prove, prove_within};
