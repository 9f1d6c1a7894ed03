//! How much the search may try.

/// Rounds at most.
pub(crate) const ROUNDS: usize = 40;

/// The first round that may be the last.
pub(crate) const FIRST_LAST: usize = 4;

/// Ten-thousandths of the table that two rounds together save at least, where the search goes on.
pub(crate) const LEAST_SAVED: usize = 30;

/// About how many entries all neighbourhoods of one kind may hold together.
pub(crate) const NEIGHBOURS: usize = 16_000_000;

/// Entries that may meet a cube that is looked at in the first round, and in the next two.
pub(crate) const FIRST_REACH: usize = 128;

pub(crate) const EARLY_REACH: usize = 1024;

/// Entries that a window may meet.
pub(crate) const WINDOW: usize = 120;

/// Own entries that a window has at least.
pub(crate) const FEWEST: usize = 4;

/// Cubes that are tried in a window.
pub(crate) const LIFTS: usize = 8;

/// Wider cubes that are tried for an entry, in each kind of view.
pub(crate) const TRIES: usize = 2;

/// Entries that a wider cube with exceptions may stand for.
pub(crate) const GROUP: usize = 64;

/// Rows that a list may say inside of the words of an edit.
pub(crate) const MOST_SAID: usize = 20_000;

/// Entries that may meet a cube that is looked at in a repair.
pub(crate) const REPAIR_REACH: usize = 1024;

/// How often the new entries of a repair are widened at most.
pub(crate) const REPAIR_ROUNDS: u32 = 4;
