//! The reasons why a line of a script is bad.
ghost use Rattle.std.specs.Prelude.{◌≡◌};
ghost use Rattle.bank_update.specs.Reasons.{reason_text};

use thiserror::Error;

/// Why a line of a script is bad.
#[derive(Clone, Copy, Debug, PartialEq, Eq, Error)]
#[error("{}", self.words())]
pub enum ScriptReason {
    /// The first column is no command.
    Command = 1,
    /// The other columns aren't those of the command.
    Arguments = 2,
}

impl ScriptReason {
    /// The reason in words.
    pub fn words(self) -> &'static str
        ensures { result.now ≡ reason_text self }
    {
        match self {
            ScriptReason::Command => "unknown command",
            ScriptReason::Arguments => "arguments",
        }
    }
}
