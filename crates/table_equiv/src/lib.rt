//! Whether a list and a table decide every header alike, or the least header that they don't, by halves of the headers.
//!
//! ```text
//! match first_difference(alloc, &list, &table)? {
//!     None => .., // they give every header the same name, or none both
//!     Some(header) => .., // the least one to which they give different names
//! }
//! let steps = cover_by_halves(alloc, &sides, &task)?; // the words of a line of a proof
//! ```
//!
//! What is promised, of any ternary words:
//!
//! - [`first_difference`] answers exactly that, or says that memory was refused.
//! - What [`cover_by_halves`] gives is a cover that shows what its task claims, where that is true, or memory was refused.
//!
//! **How it goes.** A cube of headers is left with the rules and entries that may come first on one of its headers. Where one
//! rule and one entry come first on all of them, it is done; else it is halved at the bit that most of these ask for. Rules
//! right before one that has the whole cube are left out where they decide as it does; entries likewise. Once a header is
//! found, cubes behind it are passed over. A cover is found the same way: a cube that lies in a rule or an entry that may be
//! named is done. It stands on no diagram and no search.
//!
//! Not claimed: how long it takes, and how many words a cover has. Whether words cover a word is hard in general, and this
//! ends on such lists in no time that one waits for.
//!
//! [`BitCounts`] counts how often each bit is 1 in many numbers.
//!
//! | Module | Holds |
//! |---|---|
//! | `descent`, `hint`, `bit_counts` | the search of a cube by halves, and at which bit |
//! | `covering`, `leaves` | covers by halves, and why a cube is covered |
//! | `kept`, `items` | rules and entries that may come first in a cube |
//! | `cube`, `halves` | cubes of headers, and their halves |
#![tactic(auto)]

mod bit_counts;
mod covering;
mod cube;
mod descent;
mod halves;
mod hint;
mod items;
mod kept;
mod leaves;

pub use bit_counts::BitCounts;
pub use covering::cover_by_halves;
pub use descent::first_difference;
