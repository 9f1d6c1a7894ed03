//! A script: the commands over a memory and some tables.
use field_boxes::Header;
use std::marker::Model;

/// A command of a script.
#[derive(Clone, Copy, Debug, PartialEq, Eq)]
pub enum Command {
    /// Begins a swap to a copy of the table with this number, counted from 1.
    Begin { table: u32 },
    /// Does the next write, or undoes the last one.
    Step,
    /// Lets the swap go back.
    Abort,
    /// Looks a header up.
    Look { header: Header },
    /// Says how far the swap is.
    Stage,
}

/// The commands of a script, in their order.
#[derive(Drop)]
pub struct Script {
    pub(crate) commands: Vec<Command>,
}

impl Model for Script {
    ghost use Rattle.bank_update.specs.Commands.{events_of};
    ghost use Rattle.bank_update.specs.Script.{Event};
    ghost use Rattle.std.specs.Prelude.{List};

    ghost Value = { List Event };

    ghost view = { λ s. events_of s.commands.items };
}
