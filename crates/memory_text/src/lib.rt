//! The slots of a ternary memory as text, and plans of writes to them.
//!
//! The text of a memory says how many slots there are, how wide they are, and what each slot holds that isn't empty. The text of
//! a plan has a line for each write: a slot is set to an entry, or cleared. Slots count from 1 in texts, and from 0 elsewhere.
//! Entries are written as in the second version of a table's text.
//!
//! ```text
//! let memory = read_memory(alloc, b"memory 1 slots 8 width 144 entries 0\n")?;
//! let plan = read_plan(alloc, b"plan 1 slots 8 width 144 writes 1\nclear 8\n")?;
//! write_memory(&memory, out)?;
//! ```
//!
//! What is promised:
//!
//! - [`read_memory`], [`read_plan`]: exactly the memory or the plan that the text spells, or exactly its first bad line with
//!   its first reason, or that memory ran out.
//! - [`write_memory`], [`write_plan`]: exactly the text, or at a failed write a front of it; [`laws`] says that this text
//!   spells what was written.
//! - [`SlotMemory::after`] is the memory after a plan's writes, in order, and [`table_in`] the table that stands in a memory:
//!   its entries by rising slot.
//! - [`spread`]: a memory in which a table stands in order, evenly.
//! - [`patch`]: a plan that leads from a memory to a table, by name. After any number of its writes each header is answered as
//!   by the memory or as by the table, a header with another answer than the memory's keeps it, and behind the last write the
//!   table stands there. It comes exactly where there are as many slots as both need; else that number is said.
//!
//! | Module | Holds |
//! |---|---|
//! | `memory`, `plan`, `naming` | memories, plans, and the names of their decisions |
//! | `reading`, `heading`, `line`, `draft`, `kind`, `error` | both texts read, and why one is refused |
//! | `writing` | both texts written |
//! | `spreading`, `standing` | a table that is put into a memory, and taken out of it |
//! | `patching` | plans that lead to a table |
//! | `laws` | what is written is read back |
#![tactic(auto)]

mod draft;
mod error;
mod heading;
mod kind;
pub mod laws;
mod line;
mod memory;
mod naming;
mod patching;
mod plan;
mod reading;
mod spreading;
mod standing;
mod writing;

pub use error::{SlotError, SlotReason};
pub use memory::SlotMemory;
pub use patching::{Patched, patch};
pub use plan::SlotPlan;
pub use reading::{read_memory, read_plan};
pub use spreading::spread;
pub use standing::table_in;
pub use writing::{write_memory, write_plan};

/// The writes of a plan.
pub const MOST_WRITES: u32 = 1_048_576;
