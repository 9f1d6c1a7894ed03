//! Tables without redundant entries.
//!
//! [`remove`] tries the entries of a table from the last to the first. An entry stays where some header meets it first
//! and is answered otherwise by what stays of the entries after it. So the answers are the same, and no entry that
//! stays can be left out alone: the table is irredundant. The words have to be prefixes in each field
//! ([`are_prefixes`]). [`remove_in`] does the same in an order of the fields: what stays doesn't depend on it, but what
//! it costs does.
//!
//! [`Removal::needed`] keeps the same of the table that a diagram composes, in any order of its fields, by the plans of
//! its nodes. It does so for one diagram after another, and keeps what it works out of their nodes.
//!
//! ```text
//! let tight = remove(alloc, entries)?;
//! plans.learn(alloc, &store, &order, root, 262_144)?;
//! let needed = removal.needed(alloc, &store, &plans, &order, root)?;
//! ```
//!
//! What is promised:
//!
//! - [`remove`] keeps exactly the entries that a pass from the last entry to the first keeps: part of the table in its
//!   order, the same answer for every header, where no match and decision 0 are the same, and no entry that can be left
//!   out alone. [`are_prefixes`] says exactly whether the words are prefixes in each field.
//! - [`Removal::needed`]: the entries are what such a pass keeps of a composed table, which has as many entries as the
//!   diagram costs by its plans: every header has the diagram's answer, every word is a prefix in each field, and no
//!   entry can be left out alone. It is refused only where it runs out of memory. What it keeps stays true of the
//!   diagrams and their plans, unless it ran out of memory.
//!
//! Entries are seen field by field, as *blocks*: lists of entries over the fields of a level. A block is one entry with
//! no field left, a *layer*, or two blocks in sequence. A layer has runs whose spans of the level's field rise and are
//! apart, each in front of a block of the next level; so no run sees the entries of another. Composed tables repeat the
//! same entries under many prefixes: lists of runs have numbers, equal ones one, and a list that was met before has its
//! block. Of a diagram a node's number names its block, and the rows of its prefix list are the runs, each in front of
//! the block of the row's node. Each block is kept with the set of the values that it matches.
//!
//! What is kept of a block is worked out for a list of *contexts*: for each, what is answered behind the block, and the
//! set of what an entry before it matches. Of two blocks in sequence the second stands behind the first one's set, and
//! the first before the second one's answers. Below a run only the distinct contexts matter that follow the values of
//! its span; its block is gone through once for the same contexts. Where nothing of a run is kept, nothing changes.
//! With no field left the entry stays exactly where some context doesn't meet an entry before it and is answered
//! otherwise.
//!
//! Sets and answers are diagrams of one store. A composed list of one field stands by falling length and rising value,
//! so it has at most one layer a length. Entries in another order are right too, only slower.
//!
//! | Module | Holds |
//! |---|---|
//! | `entry_table` | a table of entries without its redundant ones |
//! | `diagrams`, `removal` | the same of the tables that diagrams compose, and what is kept from one to the next |
//! | `blocks` | blocks by number |
//! | `blocks::node_blocks`, `blocks::table_blocks`, `blocks::run_blocks` | the blocks of a diagram's nodes, of a table's entries, and of lists of runs |
//! | `blocks::entry_runs`, `blocks::lists` | runs of entries, and lists of them, each once |
//! | `contexts`, `contexts::distinct` | contexts, and those of the parts of a block, each once |
//! | `sifting`, `sifting::layer`, `sifting::last_entry` | what is kept of a block, of a layer, and of one entry |
//! | `sets` | sets and answers as diagrams of one store |
//! | `laws` | what was worked out lasts while the store grows |
#![tactic(auto)]

mod blocks;
mod contexts;
mod diagrams;
mod entry_table;
pub mod laws;
mod removal;
mod sets;
mod sifting;

pub use entry_table::{remove, remove_in};
pub use removal::Removal;
pub use ternary_words::are_prefixes;
