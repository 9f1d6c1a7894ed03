//! Questions to decision diagrams.
//!
//! The diagrams are nodes of one [`node_store::Store`], where one function has one number. So two diagrams answer alike
//! exactly where their numbers are equal, and where they are not, [`least_difference`] gives the least header that
//! shows it.
//!
//! ```text
//! match least_difference(&store, wanted, built) {
//!     None => { /* the two decide every header alike */ }
//!     Some(header) => { /* the first header that they decide differently */ }
//! }
//! ```
//!
//! Whether one diagram decides as it should wherever another one gives some answer is asked of all headers of a box at
//! once: [`agrees_where`] goes through pairs of nodes, each once.
//!
//! ```text
//! if agrees_where(alloc, &store, &spans, first_match, 3, decisions, 1)? {
//!     /* where the third rule is the first match in the box, the decision is 1 */
//! }
//! ```
//!
//! Whoever walks two diagrams at once takes the intervals of a field on which both lead one way: [`joint`].
//!
//! What is promised:
//!
//! - [`least_difference`]: two diagrams answer differently on the header and alike on every header before it, by the
//!   first field in which they differ; there is none exactly where they answer alike on all headers.
//! - [`agrees_where`] says yes exactly where every header of the box at which the one diagram answers the index has the
//!   decision at the other.
//! - [`joint`] gives the coarsest intervals of a field on which two nodes lead to one child each: neighbours differ in
//!   a child, and every other such split ends wherever this one does.
//!
//! `specs/Alike.antt` of `field_boxes` says what a least difference is.
//!
//! | Module | Holds |
//! |---|---|
//! | `difference`, `parting` | the least header on which two diagrams differ |
//! | `agreement`, `agreed`, `question`, `pair` | whether one diagram decides as asked where another answers an index |
//! | `joining` | the coarsest common intervals of two nodes |
#![tactic(auto)]

mod agreed;
mod agreement;
mod difference;
mod joining;
mod pair;
mod parting;
mod question;

pub use agreement::agrees_where;
pub use difference::least_difference;
pub use joining::{JointEdge, joint};
