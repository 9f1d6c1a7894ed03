//! An editing session: a rule list that is edited, and whose tables are brought into a ternary memory write by write.
//!
//! 1. An [`Editor`] holds the list and a memory. [`Editor::add`] and [`Editor::take_out`] change the list alone.
//! 2. [`Editor::commit`] makes a table of the list as it is and begins a swap to it; a copy of the list goes with it.
//! 3. [`Editor::step`] does the next write, and [`Editor::abort`] lets the swap go back.
//! 4. [`Editor::look`] answers at any time, also after writes that failed: as the list of the settled table decides, or
//!    that of the pending one.
//! 5. [`read_session`] reads such events from a text, a command a line, and [`session_on`] does them one after another
//!    and writes the line of each before the next.
//!
//! ```text
//! let order = Order::stated();
//! let (slot, limit) = (SlotWidth { bits: 144 }, Limit { count: 262_144 });
//! let mut editor = Editor::new(alloc, list, Method::Compiled(&order), slot, limit, bank);
//! let session = read_session(alloc, b"drop 2\ncommit\nstep\n")?;
//! session_on(alloc, &session, &mut editor, &mut out)?;
//! ```
//!
//! What is promised, over every device and with any of its writes failing:
//!
//! - [`Editor::add`] puts the rule at the place that is named, [`Editor::take_out`] takes one out, and the others keep
//!   their order; or the call says exactly why not.
//! - [`Editor::commit`] begins an update to a table of the list as it is then, which is compiled in an order of the
//!   fields or shortened: whole beside the settled one, or in the slots where that stands, as the editor was made. Or it
//!   says that an update is pending, that the list needs more entries than the limit, and how many, that there is no
//!   room, or that it ran out of memory; then all is as it was.
//! - [`Editor::step`], [`Editor::abort`] and [`Editor::stage`] answer as the update machine of `bank_update` does.
//! - [`Editor::look`] gives by name what the list decides of which the answering table was made: the settled
//!   table's, or during a swap the settled or the pending one's, whatever was edited since.
//! - [`read_session`] gives exactly the commands that a text spells, or exactly the first bad line and its reason.
//!   [`session_on`] writes the lines of a run of the machine, one a command; after a failed write, or where memory is
//!   out, it says which commands ran and which of their lines were written.
//! - [`laws`]: while no swap is pending the settled table's list decides, and a commit ends, after as many successful
//!   steps as it has writes, with the list as it was committed.
//!
//! `specs/Machine.antt` says what the editor does; it stands on rules, headers and tables. `specs/SessionText.antt`
//! says what a text spells, and `specs/SessionRuns.antt` what its commands do and print.
//!
//! | Module | Holds |
//! |---|---|
//! | `editor`, `refusal` | the session over a memory, and why an edit or a commit is refused |
//! | `listing`, `ordered` | a list with its edits, and its rules in their order |
//! | `maker` | the table that a commit hands over |
//! | `way` | in which way that table takes the place of the settled one |
//! | `list_swapper`, `table_lists` | tables that are swapped, with the lists from which they were compiled |
//! | `running`, `session`, `line` | a text that is run: its commands, and the line of each |
//! | `read`, `command`, `reason` | the text of a session |
//! | `laws` | laws of sessions |
#![tactic(auto)]

mod command;
mod editor;
pub mod laws;
mod line;
mod list_swapper;
mod listing;
mod maker;
mod ordered;
mod read;
mod reason;
mod refusal;
mod running;
mod session;
mod table_lists;
mod way;

pub use editor::Editor;
pub use maker::Method;
pub use read::{SessionError, read_session};
pub use reason::SessionReason;
pub use refusal::{CommitRefusal, NoPlace, PlaceRefusal};
pub use running::session_on;
pub use session::{Session, SessionCommand};
pub use way::Replaced;
