//! An index of ternary entries, for a search that shortens tables.
//!
//! A [`SearchTable`] holds rows in order: each a word, a decision, and whether the row is fixed ([`SearchEntry`]). Its
//! moves keep what the table answers: rows that nothing needs are taken out ([`SearchTable::tight`]), a row goes down as
//! far as it can ([`SearchTable::sink`]), gets wider ([`SearchTable::prime`]) or narrower ([`SearchTable::reduce`]). Each
//! asks one question, [`free_for`]: may this cube, the headers of a word, stand here with this decision? It is answered
//! from a [`View`], the rows that meet a cube, which the table finds by sets of slots for the prefixes of each field. Words
//! are compared and changed by the operations of `word_cover`.
//!
//! What is promised: that every call is safe and returns, whatever it is given. Nothing is promised of any answer: who
//! uses what comes out of a search checks it. That the moves keep what the table answers is only tested.
//!
//! | Module | Holds |
//! |---|---|
//! | `table`, `search_entry`, `slots`, `links`, `marks` | tables that are searched: rows and their order |
//! | `view`, `sets`, `cells`, `fields` | the rows that meet a cube, found by prefixes of each field |
//! | `covers`, `sharpening` | covers of cubes, and what of one lies outside of others |
//! | `free`, `moves`, `changes` | where a cube may stand, and the moves of single rows |
#![tactic(auto)]

mod cells;
mod changes;
mod covers;
mod fields;
mod free;
mod links;
mod marks;
mod moves;
mod search_entry;
mod sets;
mod sharpening;
mod slots;
mod table;
mod view;

pub use covers::{covered, covered_by};
pub use fields::{field, raised};
pub use free::{free_for, passes};
pub use marks::{Failed, Mark};
pub use search_entry::SearchEntry;
pub use sharpening::sharp;
pub use table::SearchTable;
pub use view::View;
