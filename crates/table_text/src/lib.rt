//! The text of tables of ternary words: read in both of its versions, and written.
//!
//! The first line says the version, the slot width, how many entries were composed and how many follow. In the first
//! version a line has a character for each trit of the slot; in the second, which [`write_table`] writes, a value and a
//! mask for each field, in hexadecimal. Behind the word stands the decision.
//!
//! ```text
//! let table = read_table(alloc, b"table 2 slot 144 composed 0 entries 0\n")?;
//! write_table(&table, &mut out)?;
//! ```
//!
//! What is promised:
//!
//! - [`read_table`] gives exactly the table that a text of either version spells, its names numbered as they are first
//!   seen, or its first bad line with the first reason (a wrong number of lines comes after every bad line), or says
//!   that it ran out of memory.
//! - [`write_table`] writes exactly the text of its table, or after a failed write a front of it.
//! - [`laws`]: the text that [`write_table`] writes of a table spells that table, where each name is a decision word or
//!   the name of a rule; what it writes is in upper case; and a text of the second version, its digits in upper case,
//!   is the text of the table that it spells.
//!
//! | Module | Holds |
//! |---|---|
//! | `reading`, `heading`, `entries`, `line` | a text read whole: its first line, and one entry after another |
//! | `entry`, `spelling`, `columns`, `trits`, `names` | the entry of a line, in both versions |
//! | `error` | why a text is refused |
//! | `write`, `hexadecimal` | a table written |
//! | `laws` | laws of the definitions |
#![tactic(auto)]

mod columns;
mod entries;
mod entry;
mod error;
mod heading;
mod hexadecimal;
pub mod laws;
mod line;
mod names;
mod reading;
mod spelling;
mod trits;
mod write;

pub use entries::Entries;
pub use entry::columns_entry;
pub use error::{TableError, TableReason};
pub use heading::{HeadingWords, cut_words, read_slot};
pub use line::{count_lines, next_line};
pub use names::is_miss;
pub use reading::read_table;
pub use spelling::Spelled;
pub use write::{put_word, write_table};
