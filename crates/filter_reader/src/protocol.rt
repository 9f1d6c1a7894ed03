//! The protocol column of a rule line.
ghost use Rattle.std.specs.Prelude.{◌≡◌, ◌≤◌, IfOk};
ghost use Rattle.std.specs.Result.{result_map_both};
ghost use Rattle.field_boxes.specs.Spans.{interval_of};
ghost use Rattle.filter_reader.specs.Headline.Columns.{protocol_column, under_mask};
ghost use Rattle.field_boxes.specs.Protocols.{IsProtocol};
ghost use Rattle.filter_reader.specs.Headline.Tokens.{tokens};
ghost use Rattle.filter_reader.specs.Views.{column_by};

use crate::hexadecimal::value_and_mask;
use crate::reason::Reason;
use crate::token::next_token;
use field_boxes::Span;

/// The one protocol where the mask is 255, and every protocol where it is 0.
fn under_mask(value: u32, mask: u32) -> Result<Span, Reason>
    requires { value ≤ 255 }
    ensures set { result_map_both interval_of (λ reason. reason) result ≡ under_mask value mask }
    ensures protocol { IfOk result IsProtocol }
{
    match mask {
        255 => Ok(Span {
            lo: value,
            hi: value,
        }),
        0 => Ok(Span { lo: 0, hi: 255 }),
        _ => Err(Reason::ProtocolMask),
    }
}

/// The protocols, `0xP/0xM`.
#[tactic(auto, unfolding(crate::specs::Headline::Columns::protocol_column))]
pub fn protocol_column(line: &[u8]) -> Result<(Span, &[u8]), Reason>
    ensures read { column_by interval_of result ≡ protocol_column (tokens line.now) }
    ensures protocol { IfOk result (λ column. IsProtocol column.0) }
{
    let Some((token, rest)) = next_token(line) else {
        return Err(Reason::ProtocolForm);
    };
    let Some((value, mask)) = value_and_mask(token, 2, 255) else {
        return Err(Reason::ProtocolForm);
    };
    let span = under_mask(value, mask)?;
    Ok((span, rest))
}
