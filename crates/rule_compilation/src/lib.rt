//! The compilation of rules into a short table of ternary entries.
//!
//! [`compile`] makes the decision diagram of the rules, composes the table of the diagram, whose number of entries is
//! the field-by-field least cost of the rules (Meiners, Liu, Torng 2007 and 2010), and keeps of it what isn't
//! redundant.
//!
//! ```text
//! let table = compile(alloc, &list.rules, &list.names, limit, slot)?;
//! ```
//!
//! [`compile_in`] reads the fields in another order, in which the least cost may be another, and [`compose_in`] gives
//! the composed table whole. A [`Compiler`] compiles lists one after another and keeps what it works out, so a list
//! that an edit changed takes little time.
//!
//! What is promised:
//!
//! - [`compile`]: the table's first matching entry gives every header the decision of the first matching rule, by name,
//!   or none where none matches. `composed` is exactly the rules' field-by-field least cost. The table has at most so
//!   many entries, and is irredundant: each entry, left out alone, changes the answer of some header. Its words are
//!   prefixes in each field, and its entries are, in order, what a pass from the last to the first keeps of a table of
//!   `composed` entries that is composed of the rules. It is refused exactly where the least cost is above the limit,
//!   and says that cost, or where it runs out of memory.
//! - [`compile_in`] promises the same of its order of the fields.
//! - [`compose_in`] gives a composed table whole: as many entries as the least cost in the order, which decide as the
//!   rules.
//! - [`Compiler::compile`] has the clauses of [`compile_in`], word by word, over any lists one after another. Of equally
//!   cheap composed tables it may take another one than a fresh call.
//!
//! Not claimed: that no table is shorter. Entries are left out one at a time, from the last to the first.
//!
//! `specs/Compiled.antt` says what the table is; it stands on rules, headers and plans, and on no diagram.
//!
//! | Module | Holds |
//! |---|---|
//! | `compiling` | the table of one list |
//! | `compiler`, `kept` | the tables of one list after another, and what is kept between them |
#![tactic(auto)]

mod compiler;
mod compiling;
mod kept;

pub use compiler::Compiler;
pub use compiling::{compile, compile_in, compose_in};
