//! Laws of the removal of redundant entries, field by field.
//!
//! No code runs here: the crate holds two records and the laws on which `redundancy` stands.
//!
//! What is promised, by [`laws`]:
//!
//! - Blocks of entries over the fields of a level are sifted one by one: a block in front of another (`two`), runs
//!   whose spans rise and are apart (`layer`, `next_run`), contexts that are merged (`merged`), and entries with no
//!   field left (`last`). What is right for the parts is right for the whole.
//! - What is right for a whole table, where nothing is answered behind it and nothing met before it, is what a pass
//!   from the last entry to the first keeps (`whole_table`): the entries that some header meets first and that what is
//!   kept of the entries after it answers otherwise.
//! - What such a pass keeps is part of the table in its order, answers every header alike, where no match and decision
//!   0 are the same, and is irredundant; and no two passes keep different entries (`one_pass`).
//!
//! | Module | Holds |
//! |---|---|
//! | `context`, `sifted` | the context of a block, and what is kept of one |
//! | `laws` | the laws |
#![tactic(auto)]

mod context;
pub mod laws;
mod sifted;

pub use context::Context;
pub use sifted::Sifted;
