//! The last column of a rule line: its decision word.
ghost use Rattle.std.specs.Prelude.{◌≡◌, IsTrue, IfOk, IfSome, Ok, Err, MatchResult, option_copied};
ghost use Rattle.field_boxes.specs.Names.{is_decision_word};
ghost use Rattle.filter_reader.specs.Headline.Columns.{decision_column, decision_of, end_of_line};
ghost use Rattle.filter_reader.specs.Headline.Tokens.{tokens};
ghost use Rattle.filter_reader.specs.Views.{column_by};

use crate::reason::Reason;
use crate::token::next_token;
use field_boxes::decision_word;

/// The decision word that the token is.
#[tactic(auto, unfolding(crate::specs::Headline::Columns::decision_of))]
fn decision(token: &[u8]) -> Result<&str, Reason>
    ensures name { MatchResult result (λ name. decision_of token.now ≡ Ok name.now) (λ reason. decision_of token.now ≡ Err reason) }
    ensures word { IfOk result (λ name. IsTrue (is_decision_word name.now)) }
{
    if token == b"miss".as_slice() {
        return Err(Reason::Reserved);
    }
    if !decision_word(token) {
        return Err(Reason::DecisionForm);
    }
    match str::from_utf8(token) {
        Ok(name) => Ok(name),
        Err(_) => unreachable!(),
    }
}

/// The decision word; none where no token is left.
#[tactic(auto, unfolding(crate::specs::Headline::Columns::decision_column))]
pub fn decision_column(line: &[u8]) -> Result<(Option<&str>, &[u8]), Reason>
    ensures read { column_by option_copied result ≡ decision_column (tokens line.now) }
    ensures word { IfOk result (λ column. IfSome column.0 (λ name. IsTrue (is_decision_word name.now))) }
{
    let Some((token, rest)) = next_token(line) else {
        return Ok((None, line));
    };
    let name = decision(token)?;
    Ok((Some(name), rest))
}

/// Nothing but blanks is left.
pub fn end_of_line(line: &[u8]) -> Result<bool, Reason>
    ensures { result ≡ end_of_line (tokens line.now) }
{
    match next_token(line) {
        Some(_) => Err(Reason::Extra),
        None => Ok(true),
    }
}
