//! Sets and answers over fields: diagrams changed at some spans of one field, and unions of sets.
//!
//! The diagrams are those of node_store, over the values of a level's fields. A set of values is a diagram that answers
//! them by other numbers than 0. [`Sets`] is a store that gives the empty and the full set of a level, and works out
//! each union once. Whether a set is empty or full is seen along single edges, at most one a field.
//!
//! ```text
//! let mut sets = Sets::new(alloc);
//! let (none, full) = (sets.none(&[2, 3, 4])?, sets.full(&[3, 4])?);
//! let ports = sets.laid(&[2, 3, 4], none, &[Placed { span, to: full }])?;
//! let either = sets.union(&[2, 3, 4], ports, other)?;
//! put_parts(sets.store(), answers, either, span, &mut parts)?;
//! ```
//!
//! What is promised:
//!
//! - [`laid`] gives a node that leads elsewhere inside some spans of its field and as before outside.
//! - [`put_parts`] gives the parts of a span on which two nodes lead to one child each, each where either of them
//!   leads.
//! - [`Sets::union`] holds exactly the values that are in one of two sets; [`Sets::none`] and [`Sets::full`] answer 0
//!   and 1 everywhere.
//! - The store only gains nodes: a number that was handed out before keeps what it answers, also where a call runs out
//!   of memory.
//!
//! [`laws`] has what callers need of parts and spans taken one at a time. No clause says what a call costs: `laid` is
//! one pass over the edges of a node, and `put_parts` looks at no edge outside of the span but for two binary searches.
//!
//! | Module | Holds |
//! |---|---|
//! | `laying`, `placed` | a node changed inside spans |
//! | `parting`, `reaching` | the parts of a span |
//! | `sets`, `uniting`, `constant` | sets, their unions, and the diagrams that answer one number everywhere |
//! | `laws` | laws of the definitions |
#![tactic(auto)]

mod constant;
pub mod laws;
mod laying;
mod parting;
mod placed;
mod reaching;
mod sets;
mod uniting;

pub use laying::laid;
pub use parting::put_parts;
pub use placed::Placed;
pub use sets::Sets;
