//! Short tables of rule lists, by a search whose results are checked.
//!
//! [`shorten`] makes a table that decides every header as the rules do. It begins with the direct expansion, and has a
//! search make it shorter (`table_search`), of which nothing is promised: a table that the search finds is taken only
//! where covers show that it answers every header as the one before (`table_steps`). At the end [`trim`] takes out what
//! is redundant, so that each entry is needed.
//!
//! ```text
//! let (limit, slot) = (Limit { count: 262_144 }, SlotWidth { bits: 144 });
//! let table = shorten(alloc, &list.rules, &list.names, limit, slot)?;
//! ```
//!
//! What is promised, whatever the search finds:
//!
//! - [`shorten`]: the table's first matching entry gives every header the decision of the first matching rule, by name,
//!   or none where none matches. Its words are prefixes in each field, none of its entries can be left out alone, it
//!   has at most as many as the direct expansion and as the limit, and `composed` is their number. It is refused only
//!   where the expansion is above the limit, and says how many entries that has, or where it runs out of memory.
//! - [`shorten_in`] also compiles the rules in an order of the fields, and gives the shorter table of both: it has at
//!   most as many entries as the rules cost in that order, too. It is refused only where both are above the limit, and
//!   says the lesser number.
//! - [`Shortener::shorten`] has the clauses of [`shorten`], word by word, over any lists one after another.
//! - [`trim`] gives a part of a table that answers every header alike and is irredundant.
//!
//! Left free: how short the table is. Rules with many entries (a wide range on both ports has 900) are laid out in few,
//! some rules at a time, in front of the entries of the rules behind them, so a list whose direct expansion is far above
//! the limit mostly gets its table all the same; that is measured, and not proved. So is how much of its table a
//! [`Shortener`] keeps where a list was edited: mostly all but one or two entries.
//!
//! | Module | Holds |
//! |---|---|
//! | `shortening`, `ordered`, `task`, `refusal` | the calls, and why rules have no short table |
//! | `draft`, `laying` | entries for the last rules of a list, and rules laid out in few |
//! | `shortener`, `known`, `differences`, `taken` | lists one after another, and what is kept between them |
//! | `searching`, `checked` | the search, and what it found, compared |
//! | `trimming` | tables without their redundant entries |
#![tactic(auto)]

mod checked;
mod differences;
mod draft;
mod known;
mod laying;
mod ordered;
mod refusal;
mod searching;
mod shortener;
mod shortening;
mod taken;
mod task;
mod trimming;

pub use ordered::shorten_in;
pub use refusal::ShortenError;
pub use shortener::Shortener;
pub use shortening::shorten;
pub use taken::Taken;
pub use trimming::trim;
