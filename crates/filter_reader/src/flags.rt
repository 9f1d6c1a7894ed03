//! The column of flags, which a rule line may have.
ghost use Rattle.std.specs.Prelude.{◌≡◌, ◌==◌};
ghost use Rattle.std.specs.List.{list_any};
ghost use Rattle.filter_reader.specs.Headline.Columns.{flag_of, flags_column};
ghost use Rattle.filter_reader.specs.Headline.Tokens.{tokens};
ghost use Rattle.filter_reader.specs.Views.{column_by};

use crate::hexadecimal::value_and_mask;
use crate::reason::Reason;
use crate::token::next_token;

/// Whether the token has a `/`.
fn has_slash(token: &[u8]) -> bool
    ensures { result ≡ list_any (λ b. b == 47) token.now }
{
    token.contains(&b'/')
}

/// Whether the mask of the flags `0xF/0xM` isn't 0.
#[tactic(auto, unfolding(crate::specs::Headline::Columns::flag_of))]
fn flag(token: &[u8]) -> Result<bool, Reason>
    ensures { result ≡ flag_of token.now }
{
    match value_and_mask(token, 4, 65_535) {
        Some((_, mask)) => Ok(mask != 0),
        None => Err(Reason::FlagsForm),
    }
}

/// Whether the rule is flagged; a token without `/` isn't this column.
#[tactic(auto, unfolding(crate::specs::Headline::Columns::flags_column))]
pub fn flags_column(line: &[u8]) -> Result<(bool, &[u8]), Reason>
    ensures { column_by (λ flag. flag) result ≡ flags_column (tokens line.now) }
{
    let Some((token, rest)) = next_token(line) else {
        return Ok((false, line));
    };
    if has_slash(token) {
        let flagged = flag(token)?;
        Ok((flagged, rest))
    } else {
        Ok((false, line))
    }
}
