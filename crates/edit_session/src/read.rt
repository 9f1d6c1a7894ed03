//! Reading the text of a session.
ghost use Rattle.std.specs.Prelude.{◌≡◌, ◌≤◌, ◌*◌, IfOk, MatchResult, Ok, count_by, length};
ghost use Rattle.text_lines.specs.Reading.{IsTextRefused};
ghost use Rattle.edit_session.specs.SessionText.{is_add, session_of};

use crate::command::command_of_line;
use crate::reason::SessionReason;
use crate::session::{Session, SessionCommand};
use std::alloc::Global;
use text_lines::{LineError, TakeLine, TextError, take_lines};

/// Why the text of a session was refused.
pub type SessionError = TextError<SessionReason>;

/// The commands that were read so far.
#[derive(Drop)]
struct SessionLines {
    alloc: Global,
    commands: Vec<SessionCommand>,
}

impl TakeLine for SessionLines {
    type Reason = SessionReason;

    ghost use Rattle.std.specs.Prelude.{All, List};
    ghost use Rattle.text_lines.specs.Reading.{with_item};
    ghost use Rattle.edit_session.specs.SessionText.{SessionEvent, event_of_line};
    ghost use Rattle.edit_session.specs.SessionViews.{IsCommand, events_of};

    ghost Given = { Unit {0} };

    ghost given = { λ _. tt };

    ghost Read = { List SessionEvent };

    ghost read = { λ s. events_of s.commands.items };

    ghost step = { λ _. with_item event_of_line };

    ghost is_sound = { λ s. All IsCommand s.commands.items };

    fn take_line(&mut self, line: &[u8]) -> Result<(), LineError<SessionReason>> {
        let command = command_of_line(self.alloc, line)?;
        match self.commands.push(command) {
            Ok(()) => Ok(()),
            Err(_refused) => Err(LineError::Memory),
        }
    }
}

/// The session that the text spells, or its first bad line with the first reason why it is bad.
///
/// Lines are counted from 1, and skipped lines count. A line that adds a rule has at least 40 bytes, so the
/// names of a session are few where its text is short.
///
/// It takes time linear in the bytes, and memory for the commands and their names alone.
#[tactic(auto, using(crate::proofs::FewAdds::few_adds))]
pub fn read_session(alloc: Global, bytes: &[u8]) -> Result<Session, SessionError>
    ensures read { MatchResult result
        (λ session. session_of bytes.now ≡ Ok session)
        (λ e. IsTextRefused e (session_of bytes.now)) }
    ensures few { IfOk result (λ session. 40 * count_by is_add session ≤ length bytes.now) }
{
    let mut session = SessionLines {
        alloc,
        commands: Vec::new(alloc),
    };
    take_lines(&mut session, bytes)?;
    Ok(Session {
        commands: session.commands,
    })
}
