//! The boxes inside a given box in which a list decides by a given name.
//!
//! [`query`] writes them, a line each, and answers how many they are.
//!
//! ```text
//! match query(alloc, &list, &spans, decision, &mut out) {
//!     Ok(boxes) => { /* the boxes were written, so many of them */ }
//!     Err(QueryError::Fault) => { /* a write failed, and a front of them was written */ }
//!     Err(QueryError::Memory) => { /* out of memory, and nothing was written */ }
//! }
//! ```
//!
//! What is promised:
//!
//! - [`query`]: the boxes hold exactly the headers of the given box that the list decides by the name, or by none. They
//!   are grouped field by field in rising order, gaps allowed, and groups that follow one another without a gap differ
//!   in what follows. The number is theirs.
//! - After a failed write the sink's count of faults rose, and a front of the boxes was written; where memory is out,
//!   nothing was.
//! - [`laws`]: there is one such list of boxes and no other, and no header lies in two of them.
//!
//! The rules are cut to the box and told apart by whether they decide the name, so the diagram that is built of them
//! has two answers, and is large only inside the box. Nodes are unique and their edges lead apart: the edges that lead
//! to a wanted answer are the coarsest intervals, and a walk prints them as they stand.
//!
//! `specs/Boxes.antt` says what the boxes are, and `specs/Outcome.antt` how a call ends.
//!
//! | Module | Holds |
//! |---|---|
//! | `boxes`, `error` | the call, and why not all boxes were written |
//! | `cut`, `asked`, `diagram` | rules cut to a box, and the diagram of two answers |
//! | `walk`, `line` | the walk that writes the boxes, and the line of one |
//! | `laws` | laws of the boxes |
#![tactic(auto)]

mod asked;
mod boxes;
mod cut;
mod diagram;
mod error;
pub mod laws;
mod line;
mod walk;

pub use boxes::query;
pub use error::QueryError;
