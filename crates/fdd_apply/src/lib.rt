//! Two decision diagrams combined into one, in one walk over pairs of nodes.
//!
//! This is what Bryant calls apply. An [`Operation`] says which number comes of two, and [`apply`] gives the node that
//! answers, for all values of a level's fields, what comes of the answers of two nodes. A pair that the operation knows
//! at sight ends the walk there: so a union knows that the empty set adds nothing. Any other pair is worked out once
//! and kept in [`Results`]: two leaves by their decisions, two inner nodes part by part of their field. So the cost of
//! a walk goes by the pairs of nodes that meet, and not by the paths, of which there may be far more.
//!
//! ```text
//! let mut results = Results::new(alloc);
//! let either = apply(alloc, &Union, &mut store, &mut results, &[2, 3, 4], ports, others)?;
//! ```
//!
//! What is promised, over every [`Operation`]:
//!
//! - The node of [`apply`] answers, for all values of the level's fields, what comes of the answers of the two nodes.
//! - [`Results`] stay true while the store grows: a caller may keep them over many walks with one operation, or make
//!   them anew for each.
//! - The store only gains nodes: a number that was handed out before keeps what it answers, also where the walk runs
//!   out of memory.
//!
//! | Module | Holds |
//! |---|---|
//! | `walk`, `pair` | the walk over pairs of nodes |
//! | `operation` | what is made of the answers of two diagrams |
//! | `results`, `rooms` | what was worked out of pairs, and room for the work on one |
#![tactic(auto)]

mod operation;
mod pair;
mod results;
mod rooms;
mod walk;

pub use operation::Operation;
pub use pair::Pair;
pub use results::Results;
pub use walk::apply;
