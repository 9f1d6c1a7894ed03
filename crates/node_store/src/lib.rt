//! Decision diagrams whose nodes are shared and have numbers.
//!
//! A diagram reads a header's values field by field, in any order. An inner node knows its level: the fields that are
//! still to read, its own first. Its edges lead from intervals of its field's values to nodes of the next level, which
//! is the rest of them; a leaf has the decision, and nothing is left to read. A [`Store`] keeps the nodes of many
//! diagrams, each once, and names a node by its number: two diagrams that read the same fields in the same order and
//! answer alike are one number. So a function of diagrams works out each number once, and its cost goes by the nodes
//! and not by the paths, of which there may be far more. Diagrams of several orders lie in one store, and share nodes
//! where the orders end alike.
//!
//! ```text
//! let miss = store.leaf(0)?;
//! let web = store.leaf(1)?;
//! let below = Edge { hi: 5, to: miss };
//! let six = Edge { hi: 6, to: web };
//! let beyond = Edge { hi: 255, to: miss };
//! let protocols = store.make(&[4], &[below, six, beyond])?;
//! ```
//!
//! Whoever walks two diagrams at once takes the parts of a field on which each of two nodes leads to one child:
//! [`Store::split`].
//!
//! What is promised:
//!
//! - [`Store::same_answers`]: two nodes of one level that answer alike on all remaining values have one number, in
//!   every store.
//! - [`Store::leaf`] and [`Store::make`] give a node that answers as asked, and every number that was handed out before
//!   keeps what it answers, also where the call runs out of memory.
//! - [`Store::split`] gives parts that fill the field, each leading where either of two nodes leads; neighbouring parts
//!   lead apart in one of the two.
//!
//! `specs/Levels.antt` says what a level is, `specs/Diagram.antt` what a node answers, `specs/Store.antt` what holds of
//! every store and what no call changes. [`laws`] has what callers need of a store that grows, and of edges made in
//! turn.
//!
//! | Module | Holds |
//! |---|---|
//! | `store`, `node`, `edge`, `merge` | the store, what it keeps of a node, and edges with equal neighbours merged |
//! | `level` | levels, and the stated order of the fields |
//! | `answer`, `split` | the walk down to a leaf, and the common split of two nodes |
//! | `laws` | laws of the definitions |
#![tactic(auto)]

mod answer;
mod edge;
pub mod laws;
mod level;
mod merge;
mod node;
mod split;
mod store;

pub use answer::edge_at;
pub use edge::{Edge, NodeId, joined};
pub use level::stated_order;
pub use split::{Part, Parts};
pub use store::Store;
