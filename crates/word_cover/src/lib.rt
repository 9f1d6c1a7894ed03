//! Ternary words: how two lie to each other, what comes of them, and whether each header that a word matches is matched by
//! one of some other words.
//!
//! What is promised, of any ternary words:
//!
//! - A yes of [`covered`] says that the words cover the word.
//! - [`cover`] says that they do, or shows a header that the word matches and none of the words does, or answers
//!   `Unknown`, of which nothing is said.
//! - [`meets`] says yes exactly where the two ask for no bit differently, and where it says no, no header matches both.
//!   [`inside`] says yes exactly where the first asks for all that the second asks for, and then the second matches all that
//!   the first does. [`meet`] gives the word of what both match, where they meet, and [`hull`] the least that matches what
//!   either does.
//! - [`freed`] and [`fixed`] give the word that asks for some bits no more, or for some more; [`zero_half`] and [`one_half`]
//!   the halves at a bit that a word leaves open ([`is_open`]). [`allows`] and [`holds`] say exactly which value of a bit, and
//!   which key, a word lets through.
//!
//! Left free: a no of [`covered`]. It may be that it took more steps than its `budget`.
//!
//! | Module | Holds |
//! |---|---|
//! | `covering`, `shown` | covers, and covers with a header to show for a no |
//! | `sight` | what is seen of a word and words at a glance |
//! | `words` | two words compared, what comes of them, and a word with bits freed or fixed |
//! | `splits` | a word at a bit, and its halves |
#![tactic(auto)]

mod covering;
mod shown;
mod sight;
mod splits;
mod words;

pub use covering::covered;
pub use shown::{Shown, cover};
pub use splits::{allows, is_open, one_half, zero_half};
pub use words::{all_headers, fixed, freed, holds, hull, inside, meet, meets};
