//! The address columns of a rule line.
ghost use Rattle.std.specs.Prelude.{◌≡◌, ◌≤◌, ◌<◌, ◌^◌, IfSome, IfOk, option_copied};
ghost use Rattle.std.specs.Result.{result_map_both};
ghost use Rattle.field_boxes.specs.Headline.Prefix.{FitsWidth};
ghost use Rattle.field_boxes.specs.Prefix.{prefix_interval};
ghost use Rattle.filter_reader.specs.Headline.Addresses.{address_of, agreeing, length_of};
ghost use Rattle.filter_reader.specs.Headline.Columns.{behind_at, destination_column, prefix_set, source_column};
ghost use Rattle.filter_reader.specs.Headline.Tokens.{tokens};
ghost use Rattle.filter_reader.specs.Views.{column_by};

use crate::reason::Reason;
use crate::token::next_token;
use field_boxes::Prefix;
use text_lines::{parts_at, short_number, split_once};

/// The address that `a.b.c.d` writes, each of one to three digits and at most 255.
#[tactic(auto, unfolding(crate::specs::Headline::Addresses::address_of))]
fn address(text: &[u8]) -> Option<u32>
    ensures { result ≡ address_of text.now }
{
    let (first, rest) = split_once(text, b'.')?;
    let (second, rest) = split_once(rest, b'.')?;
    let (third, fourth) = split_once(rest, b'.')?;
    let first = short_number(first, 3, 10, 255)?;
    let second = short_number(second, 3, 10, 255)?;
    let third = short_number(third, 3, 10, 255)?;
    let fourth = short_number(fourth, 3, 10, 255)?;
    Some(first * 0x100_0000 + second * 0x1_0000 + third * 0x100 + fourth)
}

/// The length that the text writes in one or two digits, at most 32.
#[tactic(auto, unfolding(crate::specs::Headline::Addresses::length_of))]
fn prefix_length(text: Option<&[u8]>) -> Option<u32>
    ensures value { result ≡ length_of (option_copied text.entry) }
    ensures within { IfSome result (λ n. n ≤ 32) }
{
    short_number(text?, 2, 10, 32)
}

/// The prefix of the addresses that agree with this one in the first `len` bits.
fn prefix_of(address: u32, len: u8) -> Prefix
    requires { len ≤ 32 }
    ensures set { prefix_interval 32 result ≡ agreeing address len }
    ensures fits { FitsWidth 32 result }
{
    let size = 1u64 << (32 - len);
    let value = u64::from(address) / size * size;
    Prefix {
        value: value as u32,
        len,
    }
}

/// The prefix that `a.b.c.d/len` writes, whatever the bits past its length are.
#[tactic(auto, unfolding(crate::specs::Headline::Columns::prefix_set))]
fn prefix(text: &[u8]) -> Result<Prefix, Reason>
    ensures set { result_map_both (prefix_interval 32) (λ reason. reason) result ≡ prefix_set text.now }
    ensures fits { IfOk result (FitsWidth 32) }
{
    let (address_text, length_text) = parts_at(text, b'/');
    let Some(address) = address(address_text) else {
        return Err(Reason::Address);
    };
    let Some(len) = prefix_length(length_text) else {
        return Err(Reason::Length);
    };
    Ok(prefix_of(address, len as u8))
}

/// What stands behind `@`.
#[tactic(auto, unfolding(crate::specs::Headline::Columns::behind_at))]
fn behind_at(token: &[u8]) -> Option<&[u8]>
    ensures { option_copied result ≡ behind_at token.now }
{
    match token {
        [b'@', rest @ ..] => Some(rest),
        _ => None,
    }
}

/// The prefix of the source addresses, `@a.b.c.d/len`.
#[tactic(auto, unfolding(crate::specs::Headline::Columns::source_column))]
pub fn source_column(line: &[u8]) -> Result<(Prefix, &[u8]), Reason>
    ensures read { column_by (prefix_interval 32) result ≡ source_column (tokens line.now) }
    ensures fits { IfOk result (λ column. FitsWidth 32 column.0) }
{
    let Some((token, rest)) = next_token(line) else {
        return Err(Reason::NoAt);
    };
    let Some(text) = behind_at(token) else {
        return Err(Reason::NoAt);
    };
    let prefix = prefix(text)?;
    Ok((prefix, rest))
}

/// The prefix of the destination addresses, `a.b.c.d/len`.
#[tactic(auto, unfolding(crate::specs::Headline::Columns::destination_column))]
pub fn destination_column(line: &[u8]) -> Result<(Prefix, &[u8]), Reason>
    ensures read { column_by (prefix_interval 32) result ≡ destination_column (tokens line.now) }
    ensures fits { IfOk result (λ column. FitsWidth 32 column.0) }
{
    let Some((token, rest)) = next_token(line) else {
        return Err(Reason::Address);
    };
    let prefix = prefix(token)?;
    Ok((prefix, rest))
}
