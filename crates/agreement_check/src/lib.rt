//! Proofs that a list and a table decide alike, or where they first differ, and their checker.
//!
//! A proof grows with list and table, where a certificate of boxes grows with their diagram. It covers each entry by rules and
//! by the entries before it, each rule by entries and by the rules before it, and what a rule and an entry both have, where
//! these two might come first on one header and decide differently, by what comes before both. [`check_proof`] reads one and
//! says what it shows; that is true whoever wrote it. It stands on no diagram, no compiler and no search.
//!
//! ```text
//! let mut buffer = [0; 16_384];
//! let valid = check_proof(alloc, &list, &table, &mut desk, "proof.txt", &mut buffer, 0)?;
//! match valid.shown {
//!     Shown::Equal => .., // list and table agree on every header
//!     Shown::Differ(difference) => .., // the least header on which they don't, and what they decide there
//! }
//! ```
//!
//! What is promised, for any ternary words:
//!
//! - **`Ok` of [`check_proof`] implies that what it shows is true.** The proof was then read to its end.
//! - It gives the verdict that `specs/Verdict.antt` defines for the text: what a valid one shows, or the first line that is
//!   wrong and why. It says when the limit of bytes, a failed read or want of memory ends it, and what was read by then.
//! - [`laws`]: the text of each right proof is valid (trees of covers that hold, each open pair among the pairs); what a valid
//!   text shows is true; a text has one verdict.
//!
//! Why it suffices: let a header have the first rule i and the first entry j. By the cover of entry j its cover reaches rule i,
//! by that of rule i that one reaches entry j; so where the names differ the pair is open, and its cover puts the header into
//! a rule before i or an entry before j.
//!
//! Left free: at which bits the headers are halved in the search for open pairs.
//!
//! Not tried by a test: a proof of more bytes than the limit.
//!
//! | Module | Holds |
//! |---|---|
//! | `valid`, `wrong`, `pair` | what a proof shows, why one is wrong, pairs |
//! | `stream`, `whole`, `reader`, `line`, `heading`, `step` | a proof as it is read: its bytes, the words of a line, of the first line and of a cover |
//! | `claims` | what was taken of it, line by line |
//! | `sides`, `cover`, `task` | list and table, covers, and what these have to show |
//! | `cube_box`, `rule_word` | the box of a word, and the word of a rule |
//! | `open_pair`, `join`, `parting` | which pairs are open, and the search for one without a line |
//! | `laws` | laws of proofs |
#![tactic(auto)]

mod claims;
mod cover;
mod cube_box;
mod heading;
mod join;
pub mod laws;
mod line;
mod open_pair;
mod pair;
mod parting;
mod reader;
mod rule_word;
mod sides;
mod step;
mod stream;
mod task;
mod valid;
mod whole;
mod wrong;

pub use cover::{Cover, shows};
pub use cube_box::box_of;
pub use pair::Pair;
pub use rule_word::word_of;
pub use sides::Sides;
pub use step::Step;
pub use stream::{Stop, check_proof};
pub use task::{Task, entry_task, pair_task, rule_task};
pub use valid::{Difference, Shown, Valid};
pub use whole::check_text;
pub use wrong::{Counts, Why, Wrong};
