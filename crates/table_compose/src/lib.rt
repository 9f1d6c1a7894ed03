//! The field-by-field least cost of a diagram, and the composed table that has it.
//!
//! A table is composed field by field: a first-match prefix list of the first field, and for each of its rows the
//! entries over the other fields that some value of the row takes, each with the row's prefix in front. What a row
//! costs is the number of these entries. So the cheapest list of a field is the weighted one-field problem of the Razor
//! papers (Meiners, Liu, Torng 2007 and 2010), once it is known what the values of the field cost over the other
//! fields.
//!
//! A diagram tells that from the bottom up. A leaf costs one entry. The children of a node are the classes of values
//! that are alike, because nodes that answer alike have one number; they are the labels of the node's field, what they
//! cost is what the labels weigh, and the least weight of the field is what the node costs. [`cost`] gives the cost of
//! a root, [`Costs`] the costs of many roots of one store, and [`compose`] writes the entries, by the prefix lists of
//! all nodes; [`plans_within`] gives these lists alone. All go by the order in which the diagram reads its fields,
//! whichever it is; the entry has each prefix in its field.
//!
//! ```text
//! let needed = cost(alloc, &store, root)?;
//! let entries = compose(alloc, &store, &order, root, 262_144)?;
//! ```
//!
//! What is promised:
//!
//! - [`cost`] is the field-by-field least cost of every rule list that decides as the diagram answers. [`Costs`] says
//!   the same of one root after another.
//! - [`compose`] gives exactly so many entries. Every header matches one, the first match has the diagram's answer, and
//!   every word is a prefix in each field. It is refused exactly where the least cost is above the limit, and says that
//!   cost, or where it runs out of memory.
//! - [`Plans`] keeps what is worked out of nodes: all that it knows is true of the store, also when the store grows,
//!   and after a refusal.
//! - [`laws`]: no two numbers are the least cost of one list; lists that decide alike have the same one; and it is at
//!   most the number of headers.
//!
//! Not claimed: that no table is shorter. The least cost is the least of the tables that are composed field by field,
//! in one order of the fields. `specs/Headline/LeastCost.antt` says what it is of a rule list; it knows no diagram.
//!
//! | Module | Holds |
//! |---|---|
//! | `least_cost`, `costs` | what a diagram costs, and what many do |
//! | `composition`, `entries`, `row` | the composed table: its entries, and the rows of a node's list |
//! | `diagram_plans`, `node_plan`, `labels`, `placed`, `room` | the plan of each node, worked out once |
//! | `laws` | laws of the least cost |
#![tactic(auto)]

mod composition;
mod costs;
mod diagram_plans;
mod entries;
mod labels;
pub mod laws;
mod least_cost;
mod node_plan;
mod placed;
mod room;
mod row;

pub use composition::{ComposeError, compose};
pub use costs::Costs;
pub use diagram_plans::Plans;
pub use least_cost::cost;
pub use row::Row;
