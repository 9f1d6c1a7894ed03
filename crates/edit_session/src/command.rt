//! The command of a line of a session.
ghost use Rattle.std.specs.Prelude.{◌≡◌, IfOk, IfSome, MatchResult, Ok, ok_or, option_map};
ghost use Rattle.field_boxes.specs.Rules.{sets_of};
ghost use Rattle.field_boxes.specs.FilterRules.{IsFilterRule};
ghost use Rattle.filter_reader.specs.LineRules.{IsLineRule, spelled_rule};
ghost use Rattle.text_lines.specs.Columns.{behind_column, columns};
ghost use Rattle.text_lines.specs.Reading.{IsLineRefused};
ghost use Rattle.bank_update.specs.Commands.{column_seen};
ghost use Rattle.edit_session.specs.SessionText.{add_of, event_named, event_of_line, look_of, other_named, place_column, rule_of, take_out_of, when_done};
ghost use Rattle.edit_session.specs.SessionViews.{IsCommand, event_of, event_seen};
ghost use Rattle.edit_session.specs.declared.reason.SessionReason.TheVariants.{Arguments};

use crate::reason::SessionReason;
use crate::session::SessionCommand;
use bank_update::header_of;
use field_boxes::Rule;
use filter_reader::{LineRule, rule_of_line};
use std::alloc::Global;
use text_lines::{LineError, next_column, short_number};

/// The command, where no column is left.
fn when_done(command: SessionCommand, line: &[u8]) -> Option<SessionCommand>
    requires { IsCommand command }
    ensures done { option_map event_of result ≡ when_done (event_of command) (columns line.now) }
    ensures good { IfSome result IsCommand }
{
    match next_column(line) {
        Some(_) => None,
        None => Some(command),
    }
}

/// The place in the first column, a number of one to ten digits, and what stands behind it.
#[tactic(auto, unfolding(crate::specs::SessionText::place_column))]
fn place_column(line: &[u8]) -> Option<(u32, &[u8])>
    ensures read { column_seen result ≡ place_column (columns line.now) }
    ensures behind { IfSome result (λ column. column.1.now ≡ behind_column line.now) }
{
    let (column, rest) = next_column(line)?;
    let place = short_number(column, 10, 10, u32::MAX)?;
    Some((place, rest))
}

/// A place alone.
#[tactic(auto, unfolding(crate::specs::SessionText::take_out_of))]
fn take_out_of(line: &[u8]) -> Option<SessionCommand>
    ensures read { option_map event_of result ≡ take_out_of (columns line.now) }
    ensures good { IfSome result IsCommand }
{
    let (place, rest) = place_column(line)?;
    when_done(SessionCommand::TakeOut { place }, rest)
}

/// The values of a header alone.
#[tactic(auto, unfolding(crate::specs::SessionText::look_of))]
fn look_of(line: &[u8]) -> Option<SessionCommand>
    ensures read { option_map event_of result ≡ look_of (columns line.now) }
    ensures good { IfSome result IsCommand }
{
    let (header, rest) = header_of(line)?;
    when_done(SessionCommand::Look { header }, rest)
}

/// The command, or that its arguments are bad.
fn with_arguments(command: Option<SessionCommand>) -> Result<SessionCommand, SessionReason>
    requires { IfSome command IsCommand }
    ensures seen { event_seen result ≡ ok_or (option_map event_of command) Arguments }
    ensures good { IfOk result IsCommand }
{
    match command {
        Some(command) => Ok(command),
        None => Err(SessionReason::Arguments),
    }
}

/// The command other than `add` with the word, by the columns behind it.
#[tactic(auto, unfolding(crate::specs::SessionText::other_named))]
fn other_named(word: &[u8], line: &[u8]) -> Result<SessionCommand, SessionReason>
    ensures read { event_seen result ≡ other_named word.now (columns line.now) }
    ensures good { IfOk result IsCommand }
{
    if word == b"drop".as_slice() {
        return with_arguments(take_out_of(line));
    }
    if word == b"commit".as_slice() {
        return with_arguments(when_done(SessionCommand::Commit, line));
    }
    if word == b"step".as_slice() {
        return with_arguments(when_done(SessionCommand::Step, line));
    }
    if word == b"abort".as_slice() {
        return with_arguments(when_done(SessionCommand::Abort, line));
    }
    if word == b"look".as_slice() {
        return with_arguments(look_of(line));
    }
    if word == b"stage".as_slice() {
        return with_arguments(when_done(SessionCommand::Stage, line));
    }
    Err(SessionReason::Command)
}

/// The rule of the line, with no decision.
fn undecided(line: &LineRule<'_>) -> Rule
    requires { IsLineRule line.now }
    ensures sets { sets_of result ≡ (spelled_rule line.now).sets }
    ensures rule { IsFilterRule result }
    ensures undecided { result.decision ≡ 0 }
{
    Rule {
        source: line.source,
        destination: line.destination,
        ports: line.ports,
        protocol: line.protocol,
        decision: 0,
    }
}

/// A place, and on the rest of the line a good rule line with a decision word.
#[tactic(auto, unfolding(crate::specs::SessionText::rule_of))]
fn add_of(alloc: Global, text: &[u8]) -> Result<SessionCommand, LineError<SessionReason>>
    ensures read { MatchResult result
        (λ c. add_of (place_column (columns text.now)) (rule_of (behind_column text.now)) ≡ Ok (event_of c))
        (λ e. IsLineRefused e (add_of (place_column (columns text.now)) (rule_of (behind_column text.now)))) }
    ensures good { IfOk result IsCommand }
{
    let Some((place, rest)) = place_column(text) else {
        return Err(LineError::Bad(SessionReason::Arguments));
    };
    let Ok(line) = rule_of_line(rest, 0) else {
        return Err(LineError::Bad(SessionReason::Rule));
    };
    let Some(word) = line.word else {
        return Err(LineError::Bad(SessionReason::Rule));
    };
    let Ok(name) = String::from_str(alloc, word) else {
        return Err(LineError::Memory);
    };
    Ok(SessionCommand::Add {
        place,
        rule: undecided(&line),
        name,
    })
}

/// The command with the word, by the text behind it.
fn command_named(
    alloc: Global,
    word: &[u8],
    text: &[u8],
) -> Result<SessionCommand, LineError<SessionReason>>
    ensures read { MatchResult result
        (λ c. event_named word.now text.now ≡ Ok (event_of c))
        (λ e. IsLineRefused e (event_named word.now text.now)) }
    ensures good { IfOk result IsCommand }
{
    if word == b"add".as_slice() {
        return add_of(alloc, text);
    }
    match other_named(word, text) {
        Ok(command) => Ok(command),
        Err(reason) => Err(LineError::Bad(reason)),
    }
}

/// The command of a line that isn't skipped.
pub(crate) fn command_of_line(
    alloc: Global,
    line: &[u8],
) -> Result<SessionCommand, LineError<SessionReason>>
    ensures read { MatchResult result
        (λ c. event_of_line line.now ≡ Ok (event_of c))
        (λ e. IsLineRefused e (event_of_line line.now)) }
    ensures good { IfOk result IsCommand }
{
    match next_column(line) {
        Some((word, rest)) => command_named(alloc, word, rest),
        None => Err(LineError::Bad(SessionReason::Command)),
    }
}
