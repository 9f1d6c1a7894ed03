//! Rule lists drawn from a seed, for loads that anyone can make again.
//!
//! The numbers come from the linear congruential generator that ANSI C gives as an example of `rand`: `x` becomes `(x *
//! 1103515245 + 12345) mod 2^31`, and `x / 256` is the number drawn. Each rule takes six draws: source address,
//! destination address, source port, destination port, protocol, decision. The headers of a load take five draws each,
//! behind the rules.
//!
//! ```text
//! let list = generate(alloc, 7, 1000)?;
//! ```
//!
//! What is promised:
//!
//! - [`generate`] gives exactly the list that a seed gives: its rules by their sets and names, numbered as they are
//!   first seen, none flagged. So `write_list` of `filter_reader` may write it, and its text spells that list.
//! - [`generate_load`] gives the same list, and exactly the 256 headers that are drawn behind its rules.
//! - [`next`] is one turn of the generator.
//! - [`laws`]: the first states from 1, and the one rule of seed 1, worked from the definitions.
//!
//! | Module | Holds |
//! |---|---|
//! | `lists`, `rule`, `sets`, `draws` | a list, its rules, and what the drawn numbers stand for |
//! | `load`, `headers` | a list with headers to try it |
//! | `laws` | worked rows of the definitions |
#![tactic(auto)]

mod draws;
mod headers;
pub mod laws;
mod lists;
mod load;
mod rule;
mod sets;

pub use draws::next;
pub use lists::{generate, generate_load};
pub use load::Load;
