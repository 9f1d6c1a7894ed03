//! Why a line of a session is bad.
ghost use Rattle.std.specs.Prelude.{◌≡◌};
ghost use Rattle.edit_session.specs.Reasons.{reason_text};

use thiserror::Error;

/// Why a line of a session is bad.
#[derive(Clone, Copy, Debug, PartialEq, Eq, Error)]
#[error("{}", self.words())]
pub enum SessionReason {
    /// The first column is no command.
    Command = 1,
    /// The number of a rule is missing or bad, or the other columns aren't those of the command.
    Arguments = 2,
    /// What follows the number of a rule to be added is no good rule line with a decision word.
    Rule = 3,
}

impl SessionReason {
    /// The reason in words.
    pub fn words(self) -> &'static str
        ensures { result.now ≡ reason_text self }
    {
        match self {
            SessionReason::Command => "unknown command",
            SessionReason::Arguments => "arguments",
            SessionReason::Rule => "rule",
        }
    }
}
