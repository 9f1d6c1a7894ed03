//! The commands of an editing session.
ghost use Rattle.std.specs.Prelude.{◌≡◌, All};
ghost use Rattle.edit_session.specs.SessionViews.{events_of, IsCommand};

use field_boxes::{Header, Rule};
use std::marker::Model;

/// A command of a session.
///
/// Places of rules are counted from 1. The rule of an `Add` has the decision 0; `name` is its decision word.
#[derive(Debug, Drop)]
pub enum SessionCommand {
    /// Puts the rule at this place of the list.
    Add {
        place: u32,
        rule: Rule,
        name: String,
    },
    /// Takes the rule at this place out of the list.
    TakeOut {
        place: u32,
    },
    /// Compiles the list and begins a swap to its table.
    Commit,
    /// Does the next write, or undoes the last one.
    Step,
    /// Lets the swap go back.
    Abort,
    /// Looks a header up.
    Look {
        header: Header,
    },
    /// Says how far the swap is.
    Stage,
}

/// The commands of a session, in their order.
#[derive(Drop)]
pub struct Session {
    pub(crate) commands: Vec<SessionCommand>,
}

impl Model for Session {
    ghost use Rattle.std.specs.Prelude.{All, List};
    ghost use Rattle.edit_session.specs.SessionText.{SessionEvent};
    ghost use Rattle.edit_session.specs.SessionViews.{events_of, IsCommand};

    ghost Value = { List SessionEvent };

    ghost view = { λ s. events_of s.commands.items };

    ghost invariant = { λ s. All IsCommand s.commands.items };
}

impl Session {
    /// The commands, in their order.
    pub fn commands(&self) -> &[SessionCommand]
        ensures commands { events_of result.now ≡ self.now }
        ensures good { All IsCommand result.now }
    {
        &self.commands
    }
}
