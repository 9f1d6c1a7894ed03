//! Ternary words, entries and tables, and the first entry that matches a header.
//!
//! A TCAM holds a list of entries, each a word of trits `0`, `1`, `*` and a decision. A key matches a word if every
//! trit that isn't `*` equals the key's bit at its place, and a lookup answers by the first matching entry.
//!
//! What is promised:
//!
//! - [`Word::matches`] says yes exactly where every trit of the word that isn't `*` is the header's bit at its place,
//!   of 104. [`Word::of`] makes the word of five prefixes, which matches exactly the headers that all five hold.
//! - [`Word::spans`] gives the box of the headers that the word matches, and none exactly where the word isn't a prefix
//!   in each field.
//! - [`key`] gives the bits of a header as a number, and [`values_of`] the values of a number; [`FIELD_PLACES`] says where the
//!   fields lie in it.
//! - [`are_prefixes`] says exactly whether the words of entries are prefixes in each field.
//! - [`look`] gives the place of the first entry that matches, and none exactly where none does; what it decides is the
//!   table's answer ([`laws`]).
//! - [`SlotWidth::of`] and [`Limit::of`] give a width or a limit exactly where it is one.
//! - [`Table::copy`] has the same entries, with the same names under the same numbers.
//!
//! | Module | Holds |
//! |---|---|
//! | `word`, `masks`, `parts` | ternary words as values and masks, and their prefixes |
//! | `keys`, `field_places` | the bits of a header as a number, and where the fields lie in it |
//! | `entry`, `table`, `lookup`, `prefix_words` | entries, tables, the first match, and entries of prefixes |
//! | `slot_width`, `limit` | the width of a slot, and how many entries a table may have |
//! | `laws` | laws of the definitions |
#![tactic(auto)]

mod entry;
mod field_places;
mod keys;
pub mod laws;
mod limit;
mod lookup;
mod masks;
mod parts;
mod prefix_words;
mod slot_width;
mod table;
mod word;

pub use entry::Entry;
pub use field_places::{FIELD_PLACES, FieldPlace};
pub use keys::{key, values_of};
pub use limit::Limit;
pub use lookup::look;
pub use prefix_words::are_prefixes;
pub use slot_width::SlotWidth;
pub use table::Table;
pub use word::Word;
