//! The cheapest prefix list of one field.
//!
//! A field's values fall into pieces, each with a label, and each label has a weight. [`minimise`] gives a first-match
//! prefix list that answers every value with its label, and no right list weighs less. It is the weighted one-field
//! problem of the Razor papers (Meiners, Liu, Torng 2007 and 2010).
//!
//! ```text
//! let pieces = [Piece { hi: 0, label: 0 }, Piece { hi: 1, label: 1 }];
//! let cheapest = minimise(alloc, &pieces, &[1, 1], 1)?;
//! // cost 2; rows: value 1 of length 1 has label 1, the whole field has label 0
//! ```
//!
//! What is promised:
//!
//! - [`minimise`]: the rows answer every value with its label, their weight is `cost`, and every list of prefixes that
//!   answers so, in any order, with repeats and redundant rows, weighs at least that. The rows stand longest first.
//! - Of the lists that weigh as little one is chosen, for rows whose label weighs something: put any longer rows in the
//!   place of a row and of what lies in its prefix, and a right list weighs more, without the row as well as with a
//!   lesser one of the pieces' labels.
//! - [`Costing::cheapest`] has the clauses of [`minimise`], over one list after another in one room, and
//!   [`Costing::minimum`] gives the least weight alone.
//!
//! | Module | Holds |
//! |---|---|
//! | `costing` | the calls, and the room in which they work |
//! | `piece`, `row` | pieces of a field, rows of a list, and their order |
//! | `parts` | parts of the field: the values below one prefix |
//! | `field`, `field::whole_field` | what each part costs and saves, and the whole field |
//! | `stack` | the state of a call: what the parts that are done save, cost and choose |
//! | `savings`, `savings::merging`, `savings::pairs` | what a part saves, from what its halves save |
//! | `plan`, `appending` | what the parts choose to write, and pushes into its arena |
//! | `laws` | pieces that grow |
#![tactic(auto)]

mod appending;
mod costing;
mod field;
pub mod laws;
mod parts;
mod piece;
mod plan;
mod row;
mod savings;
mod stack;

pub use costing::{Cheapest, Costing, minimise};
pub use piece::Piece;
pub use row::PrefixRow;
