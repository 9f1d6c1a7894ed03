//! Decision diagrams of rule lists, and diagrams changed in one box.
//!
//! [`build`] gives a node that answers every header with the decision of the first rule that matches, as the firewall
//! decision diagrams of Gouda and Liu do, and reads the fields in the order that it is given. [`under`] and [`over`]
//! give one that answers as a diagram in the stated order does, but for one box, and [`under_rule`] one that does but
//! for what a rule matches. All are overlays of one diagram on another: where the upper one answers 0, the lower one
//! shows.
//!
//! An overlay is one walk over pairs of nodes of one level, by [`fdd_apply::apply`], where a pair of which one node
//! answers 0 everywhere is known at sight. So the cost of a walk goes by the pairs of nodes that meet, and not by the
//! paths, of which there may be far more. `build` halves the list and lays the first half over the second, since each
//! overlay touches all that the two halves share, however small one of them is. A long half is built in a store of its
//! own, of which only the diagram is copied. A [`Builder`] builds the diagrams of lists one after another in one store,
//! and keeps what pairs came to: a list that differs in a rule from an earlier one costs the pairs that are new.
//!
//! ```text
//! let listed = build(alloc, &mut store, &stated_order(), &rules)?;
//! let opened = under(alloc, &mut store, listed, &spans, 1)?;
//! let closed = over(alloc, &mut store, &spans, 0, listed)?;
//! ```
//!
//! What is promised:
//!
//! - [`build`]: at every header the node answers the decision of the first rule that matches, or 0 where none does, in
//!   any order of the fields.
//! - [`under`] answers the decision in the box where the diagram above answers 0, and as that diagram elsewhere;
//!   [`over`] answers the decision in the box, and as the diagram below elsewhere; [`under_rule`] answers the rule's
//!   decision where the diagram above answers 0 and the rule, with its unions of ports, matches.
//! - [`Builder::build`] gives what [`build`] promises, one list after another, and what it keeps of pairs stays true.
//! - The store only gains nodes: a number that was handed out before keeps what it answers, also where a call runs out
//!   of memory.
//!
//! | Module | Holds |
//! |---|---|
//! | `halving`, `builder` | the diagram of a list, once, and of one list after another |
//! | `change`, `boxes`, `fork` | a diagram changed in one box |
//! | `laying`, `overlay`, `nothing` | overlays, and the diagrams that answer 0 everywhere |
//! | `copying`, `filling` | diagrams copied into another store, and edges that fill a field |
#![tactic(auto)]

mod boxes;
mod builder;
mod change;
mod copying;
mod filling;
mod fork;
mod halving;
mod laying;
mod nothing;
mod overlay;

pub use builder::Builder;
pub use change::{over, under, under_rule};
pub use halving::build;
