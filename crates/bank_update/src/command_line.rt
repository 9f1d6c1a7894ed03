//! The commands of a script, each read from the columns of its line.
ghost use Rattle.std.specs.Prelude.{◌≡◌, ◌≤◌, ℕ, Some, IfOk, IfSome, option_map, ok_or};
ghost use Rattle.text_lines.specs.Columns.{columns};
ghost use Rattle.bank_update.specs.Commands.{column_seen, event_of, event_seen, values_seen};
ghost use Rattle.bank_update.specs.Script.{IsWithin, begin_of, event_named, event_of_columns, look_of, value_column, values_of, when_done};
ghost use Rattle.bank_update.specs.declared.reason.ScriptReason.TheVariants.{Arguments};

use crate::reason::ScriptReason;
use crate::script::Command;
use field_boxes::Header;
use razor_base::limits::{GREATEST_PORT, GREATEST_PROTOCOL};
use text_lines::{next_column, number_within};

/// The value of the first column, a number of one digit or more, and what stands behind it.
///
/// None where there is no column, where it is no number, and where the number is above the greatest.
#[tactic(auto, unfolding(crate::specs::Script::value_column))]
fn value_column(line: &[u8], greatest: u32) -> Option<(u32, &[u8])>
    ensures read { column_seen result ≡ value_column greatest (columns line.now) }
    ensures within { IfSome result (λ column. column.0 ≤ greatest) }
{
    let (column, rest) = next_column(line)?;
    let value = number_within(column, 10, greatest)?;
    Some((value, rest))
}

/// The command, where no column is left.
fn when_done(command: Command, line: &[u8]) -> Option<Command>
    ensures done { option_map event_of result ≡ when_done (event_of command) (columns line.now) }
    ensures same { IfSome result (λ c. c ≡ command) }
{
    match next_column(line) {
        Some(_) => None,
        None => Some(command),
    }
}

/// The number of one of so many tables.
#[tactic(auto, unfolding(crate::specs::Script::begin_of))]
fn begin_of(line: &[u8], tables: u32) -> Option<Command>
    ensures read { option_map event_of result ≡ begin_of tables (columns line.now) }
    ensures within { IfSome result (λ c. IsWithin tables (event_of c)) }
{
    let (table, rest) = value_column(line, tables)?;
    if 1 <= table {
        when_done(Command::Begin { table }, rest)
    } else {
        None
    }
}

/// A value for each of the five fields, from left to right, and what stands behind them.
#[tactic(auto, unfolding(crate::specs::Script::values_of))]
pub fn header_of(line: &[u8]) -> Option<(Header, &[u8])>
    ensures { values_seen result ≡ values_of (columns line.now) }
{
    let (source, rest) = value_column(line, u32::MAX)?;
    let (destination, rest) = value_column(rest, u32::MAX)?;
    let (source_port, rest) = value_column(rest, GREATEST_PORT)?;
    let (destination_port, rest) = value_column(rest, GREATEST_PORT)?;
    let (protocol, rest) = value_column(rest, GREATEST_PROTOCOL)?;
    let header = Header {
        values: [source, destination, source_port, destination_port, protocol],
    };
    Some((header, rest))
}

/// The values of a header alone.
#[tactic(auto, unfolding(crate::specs::Script::look_of))]
fn look_of(line: &[u8]) -> Option<Command>
    ensures read { option_map event_of result ≡ look_of (columns line.now) }
    ensures within { (tables : ℕ) → IfSome result (λ c. IsWithin tables (event_of c)) }
{
    let (header, rest) = header_of(line)?;
    when_done(Command::Look { header }, rest)
}

/// The command, or that its arguments are bad.
fn with_arguments(command: Option<Command>) -> Result<Command, ScriptReason>
    ensures seen { event_seen result ≡ ok_or (option_map event_of command) Arguments }
    ensures same { IfOk result (λ c. command ≡ Some c) }
{
    match command {
        Some(command) => Ok(command),
        None => Err(ScriptReason::Arguments),
    }
}

/// The command with the word, by the columns behind it.
#[tactic(auto, unfolding(crate::specs::Script::event_named))]
fn command_named(word: &[u8], line: &[u8], tables: u32) -> Result<Command, ScriptReason>
    ensures read { event_seen result ≡ event_named tables word.now (columns line.now) }
    ensures within { IfOk result (λ c. IsWithin tables (event_of c)) }
{
    if word == b"begin".as_slice() {
        return with_arguments(begin_of(line, tables));
    }
    if word == b"step".as_slice() {
        return with_arguments(when_done(Command::Step, line));
    }
    if word == b"abort".as_slice() {
        return with_arguments(when_done(Command::Abort, line));
    }
    if word == b"look".as_slice() {
        return with_arguments(look_of(line));
    }
    if word == b"stage".as_slice() {
        return with_arguments(when_done(Command::Stage, line));
    }
    Err(ScriptReason::Command)
}

/// The command of a line that isn't skipped.
pub(crate) fn command_of_line(line: &[u8], tables: u32) -> Result<Command, ScriptReason>
    ensures read { event_seen result ≡ event_of_columns tables (columns line.now) }
    ensures within { IfOk result (λ c. IsWithin tables (event_of c)) }
{
    match next_column(line) {
        Some((word, rest)) => command_named(word, rest, tables),
        None => Err(ScriptReason::Command),
    }
}
