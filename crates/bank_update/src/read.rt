//! Reading a script whole.
ghost use Rattle.std.specs.Prelude.{◌≡◌, All, IfOk, MatchResult, Ok};
ghost use Rattle.text_lines.specs.Reading.{IsTextRefused};
ghost use Rattle.bank_update.specs.Script.{IsWithin, script_of};

use crate::command_line::command_of_line;
use crate::reason::ScriptReason;
use crate::script::{Command, Script};
use std::alloc::Global;
use text_lines::{LineError, TakeLine, TextError, take_lines};

/// Why the text of a script was refused.
pub type ScriptError = TextError<ScriptReason>;

/// The commands that were read so far, for so many tables.
#[derive(Drop)]
struct ScriptLines {
    tables: u32,
    commands: Vec<Command>,
}

impl TakeLine for ScriptLines {
    type Reason = ScriptReason;

    ghost use Rattle.bank_update.specs.Commands.{events_of};
    ghost use Rattle.bank_update.specs.Script.{Event, IsWithin, event_of_line};
    ghost use Rattle.std.specs.Prelude.{ℕ, All, List};
    ghost use Rattle.text_lines.specs.Reading.{with_item};

    ghost Given = { ℕ };

    ghost given = { λ s. s.tables };

    ghost Read = { List Event };

    ghost read = { λ s. events_of s.commands.items };

    ghost step = { λ tables. with_item (event_of_line tables) };

    ghost is_sound = { λ s. All (IsWithin s.tables) (events_of s.commands.items) };

    fn take_line(&mut self, line: &[u8]) -> Result<(), LineError<ScriptReason>> {
        let command = match command_of_line(line, self.tables) {
            Ok(command) => command,
            Err(reason) => return Err(LineError::Bad(reason)),
        };
        match self.commands.push(command) {
            Ok(()) => Ok(()),
            Err(_refused) => Err(LineError::Memory),
        }
    }
}

/// The script that the text spells, for so many tables, or its first bad line with the reason why it is bad.
///
/// Lines are counted from 1, and skipped lines count.
pub fn read_script(alloc: Global, bytes: &[u8], tables: u32) -> Result<Script, ScriptError>
    ensures read { MatchResult result
        (λ script. script_of tables bytes.now ≡ Ok script)
        (λ e. IsTextRefused e (script_of tables bytes.now)) }
    ensures within { IfOk result (λ script. All (IsWithin tables) script) }
{
    let mut script = ScriptLines {
        tables,
        commands: Vec::new(alloc),
    };
    take_lines(&mut script, bytes)?;
    Ok(Script {
        commands: script.commands,
    })
}
