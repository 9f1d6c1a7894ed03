//! A search that shortens ternary tables.
//!
//! [`Shortening`] holds a table and shortens it round by round. In a round each entry is widened where that makes
//! others redundant, with exceptions put in front of it where it needs them. Where that gains little, entries are
//! widened freely, the entries of small windows are arranged anew, and all are narrowed again. [`Layout`] gives a table
//! to begin with: rules with wide port ranges, whose entries are hundreds, have few rows in it.
//!
//! ```text
//! let mut shortening = Shortening::new(alloc, &entries)?;
//! for _ in 0..40 {
//!     if !shortening.round()? {
//!         break;
//!     }
//! }
//! let shorter = shortening.entries()?;
//! ```
//!
//! [`repaired`] makes entries for a list that was edited out of those for the list before, of which most stay: what the
//! list says where the edit shows comes in front, goes down as far as it can, and is made shorter by the same steps.
//! [`in_old_order`] gives a table that was made anew an order much like that of the one before. In both, new entries come
//! where a memory has [`Room`] between the old ones.
//!
//! What is promised: that every call is safe and returns. Nothing is promised of what comes out: whoever uses it checks
//! that it answers as the entries before did. No clause says how short the tables are, which is measured, or that the
//! same entries give the same table each time, though nothing but the entries goes in.
//!
//! | Module | Holds |
//! |---|---|
//! | `layout`, `strips`, `shapes`, `sides` | tables to begin with, rule by rule |
//! | `rounds`, `search` | the search over a table |
//! | `widening`, `candidates`, `judging`, `gaining`, `groups` | entries that are widened, and what is gained |
//! | `exceptions`, `against`, `lifting` | what must stand in front of a wider cube |
//! | `windows`, `hashes`, `known` | small windows arranged anew, and what was tried before |
//! | `repair`, `saying`, `mending` | a table repaired where its list was edited |
//! | `room`, `spots`, `placing`, `places`, `ordering` | free slots of a memory, and an order of new entries for which few old ones move |
//! | `effort`, `draws`, `rows` | how much is tried, the numbers that are drawn, and rows of entries |
#![tactic(auto)]

mod against;
mod candidates;
mod draws;
mod effort;
mod exceptions;
mod gaining;
mod groups;
mod hashes;
mod judging;
mod known;
mod layout;
mod lifting;
mod mending;
mod ordering;
mod places;
mod placing;
mod repair;
mod room;
mod rounds;
mod rows;
mod saying;
mod search;
mod shapes;
mod sides;
mod spots;
mod strips;
mod widening;
mod windows;

pub use layout::{Layout, WIDE};
pub use ordering::in_old_order;
pub use repair::repaired;
pub use room::Room;
pub use rounds::Shortening;
