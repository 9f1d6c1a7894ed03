//! The order of the fields in which the table of a rule list is composed.
//!
//! A table that is composed field by field can read the fields in any of 120 orders, and what it costs depends on the
//! order: a field that tells few rules apart is cheap in front, and one that tells many apart may repeat all that is
//! behind it.
//!
//! ```text
//! let (order, cost) = best_order(alloc, &rules)?;
//! ```
//!
//! What is promised:
//!
//! - [`cost_in`] is the field-by-field least cost of the rules in an order.
//! - [`best_order`] gives an order in which the rules cost least of all 120, of equal ones that whose digits come
//!   first, and what they cost in it.
//!
//! `field_boxes/specs/Orders.antt` says what an order is, and `specs/Best.antt` which one is the best.
//!
//! | Module | Holds |
//! |---|---|
//! | `best`, `costing` | the best order, and the cost in one |
//! | `search`, `worth` | what nodes cost in any order of their fields |
//! | `front`, `fronts`, `turning`, `row`, `labels` | a node with another field of its level in front |
//! | `order` | orders by their places |
#![tactic(auto)]

mod best;
mod costing;
mod front;
mod fronts;
mod labels;
mod order;
mod row;
mod search;
mod turning;
mod worth;

pub use best::best_order;
pub use costing::cost_in;
