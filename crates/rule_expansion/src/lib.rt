//! The direct expansion of rules into ternary entries.
//!
//! A ternary word holds a prefix in each field, and no interval. So the set of each field of a rule becomes its
//! shortest cover by prefixes, and the rule one entry for each combination of prefixes of the five covers: up to 480
//! times 480 for two ports of sixteen ranges each.
//!
//! ```text
//! let table = expand(alloc, &list.rules, &list.names, limit, slot)?;
//! ```
//!
//! What is promised:
//!
//! - [`expand`] gives exactly the expansion of the rules, in order, as a table, and is refused exactly where it has
//!   more entries than the limit, and says how many, or where it runs out of memory. [`expanded_entries`] gives the
//!   entries alone, and [`entry_count`] their number.
//! - [`laws`]: the first matching entry of an expansion decides every header as the first matching rule; it has as many
//!   entries as are counted; and its words are prefixes in each field.
//!
//! Left free: shortness. An expansion minimises nothing but the covers of single fields.
//!
//! | Module | Holds |
//! |---|---|
//! | `expanding`, `entries`, `counting` | the table, its entries, and how many they are |
//! | `covers`, `sets` | the covers of a rule's five sets |
//! | `laws` | laws of the definitions |
#![tactic(auto)]

mod counting;
mod covers;
mod entries;
mod expanding;
pub mod laws;
mod sets;

pub use counting::entry_count;
pub use entries::expanded_entries;
pub use expanding::{ExpandError, expand};
