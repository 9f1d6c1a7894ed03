//! Replacing the table of a ternary memory write by write, so that each lookup on the way is answered by the old table
//! or by the new one.
//!
//! An [`Updater`] does the writes of a plan, forward or back, over any table that tells them ([`StandingTable`]). A
//! [`Swapper`] is one that puts the new table whole above or below the old one, and then clears the old one; so a swap
//! needs free slots for the whole new table on one side. [`read_script`] reads such events from a text, and [`drive_on`]
//! runs them.
//!
//! What is promised, over every device and with any of its writes failing:
//!
//! - Whatever was begun, stepped, aborted and looked up, the slots hold what the state says. [`Updater::look`] answers
//!   by name exactly as the settled table does, or during an update as the settled one or the new one does.
//! - A [`Updater::step`] that goes forward takes no header from the new answer back to the old one. A step tries one
//!   write and no other, and a failed one moves nothing.
//! - [`Swapper::begin`], [`Updater::step`], [`Updater::abort`] and [`Updater::stage`] answer exactly as the update
//!   machine of `specs/Machine.antt`. A refused table comes back, and no call takes memory.
//! - [`read_script`] gives exactly the commands that a text spells, or exactly the first bad line and its reason.
//! - [`drive_on`] writes the lines of a run of that machine, one a command, and the swapper stands at the end of the
//!   run. After a failed write, or where memory is out, it says which commands ran and which of their lines were
//!   written. No more steps failed than the device's count of faults rose by, unless that stands at its last value.
//! - [`laws`]: what stands at both ends of an update; that it ends after exactly as many steps as its plan has writes,
//!   for a whole swap as both tables have entries; that a step back leaves the slots that stood before the write it
//!   undoes; and that over a device that counts no fault the lines are those of the machine with no fault.
//!
//! | Module | Holds |
//! |---|---|
//! | `updater`, `progress`, `underway`, `standing_table`, `write`, `stage`, `refusal` | a device whose table is replaced write by write |
//! | `swapper`, `block` | whole swaps |
//! | `drive`, `script`, `line` | a script that is run: its commands, and the line of each |
//! | `read`, `command_line`, `reason` | the text of a script |
//! | `laws` | laws of swaps |
#![tactic(auto)]

mod block;
mod command_line;
mod drive;
pub mod laws;
mod line;
mod progress;
mod read;
mod reason;
mod refusal;
mod script;
mod stage;
mod standing_table;
mod swapper;
mod underway;
mod updater;
mod write;

pub use block::{Block, Placed};
pub use command_line::header_of;
pub use drive::{DriveError, drive_on};
pub use line::{write_begun, write_line, write_name, write_stage, write_step};
pub use read::{ScriptError, read_script};
pub use reason::ScriptReason;
pub use refusal::{BeginRefusal, Idle, StepRefusal};
pub use script::{Command, Script};
pub use stage::Stage;
pub use standing_table::StandingTable;
pub use swapper::Swapper;
pub use updater::Updater;
pub use write::{Put, Write};
