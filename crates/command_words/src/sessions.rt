//! How a session goes.
ghost use Rattle.std.specs.Prelude.{◌≡◌};
ghost use Rattle.std.specs.Option.{option_map};
ghost use Rattle.command_words.specs.Sessions.{Compiling, by_written, making_of};
ghost use Rattle.command_words.specs.Settings.{by_seen, making_seen, wanted_seen};

use crate::sizes::{Sizes, Slots};
use crate::swap::Swap;
use crate::wanted::Wanted;
use field_boxes::Order;

/// Whether the tables of a session are compiled or shortened.
#[derive(Clone, Copy, Debug, PartialEq, Eq)]
pub(crate) enum By {
    Compiling,
    Shortening,
}

/// How the tables of a session are made.
#[derive(Clone, Copy, Debug, PartialEq, Eq)]
pub enum Making {
    /// Compiled, with the fields read in this order.
    CompiledIn(Order),
    /// By a search for a short table.
    Shortened,
}

/// The slots of the memory, the sizes of the tables, how they are made, and how they are replaced.
#[derive(Clone, Copy, Debug, PartialEq, Eq)]
pub struct SessionTerms {
    pub slots: Slots,
    pub sizes: Sizes,
    pub making: Making,
    pub swap: Swap,
}

/// The way that a value of the option writes; none where the option doesn't take it.
pub(crate) fn by_written(value: &[u8]) -> Option<By>
    ensures { option_map by_seen result ≡ by_written value.now }
{
    if value == b"compile".as_slice() {
        return Some(By::Compiling);
    }
    if value == b"shorten".as_slice() {
        return Some(By::Shortening);
    }
    None
}

/// How tables are made, by both options: in the stated order where none is given. None where an order is given for tables
/// that are shortened, or is to be sought.
pub(crate) fn making_of(by: By, order: Option<Wanted>) -> Option<Making>
    ensures { option_map making_seen result ≡ making_of (by_seen by) (option_map wanted_seen order) }
{
    match by {
        By::Compiling => compiled_in(order),
        By::Shortening => match order {
            Some(_) => None,
            None => Some(Making::Shortened),
        },
    }
}

/// Compiled in the order, the stated one where none is given; none where it is to be sought.
fn compiled_in(order: Option<Wanted>) -> Option<Making>
    ensures { option_map making_seen result ≡ making_of Compiling (option_map wanted_seen order) }
{
    let Some(wanted) = order else {
        return Some(Making::CompiledIn(Order::stated()));
    };
    match wanted {
        Wanted::In(order) => Some(Making::CompiledIn(order)),
        Wanted::Best => None,
    }
}
