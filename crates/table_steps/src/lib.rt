//! Steps that change a table and keep its answers, and tests of such changes.
//!
//! A word is free to stand in front of entries where these answer each of its headers as it decides ([`free_for`]). By
//! this one question an entry is redundant or needed, entries are taken out and put in, and entries are exchanged for
//! others.
//!
//! What is promised, of any ternary words:
//!
//! - [`take_out`], [`tight`] and [`put_in`] change the table only so that every header keeps its answer.
//! - A yes of [`redundant`] says that the entry can be left out, a yes of [`can_exchange`] that the new entries can
//!   stand in the place of the table's first ones, and a yes of [`answers_alike`] that two tables answer every header
//!   alike.
//! - A yes of [`is_tight`] says that the table is irredundant: each entry, left out alone, changes some answer.
//!   [`needs`] shows a header that is answered otherwise without the entry, or says that it is redundant, or neither.
//!
//! Left free: every no, and whether anything is taken out. A `budget` is how many steps each question about words that
//! cover a word may take, as in `word_cover`.
//!
//! | Module | Holds |
//! |---|---|
//! | `steps`, `exchange`, `tables` | steps, exchanges, and two tables compared |
//! | `free`, `passing`, `gathering` | where a word may stand, and past which entries |
//! | `answering`, `holding` | which entries may answer a word, and which are hidden |
//! | `parts`, `parting` | the part of a table that is looked at for a word |
//! | `need`, `wanted` | whether an entry is needed, with a header to show for it |
//! | `numbers`, `laws` | the numbers that entries decide, and laws of parts of a table |
#![tactic(auto)]

mod answering;
mod exchange;
mod free;
mod gathering;
mod holding;
pub mod laws;
mod need;
mod numbers;
mod parting;
mod parts;
mod passing;
mod steps;
mod tables;
mod wanted;

pub use exchange::can_exchange;
pub use free::free_for;
pub use need::{Need, is_tight, needs};
pub use numbers::are_numbered;
pub use steps::{put_in, redundant, take_out, tight};
pub use tables::answers_alike;
