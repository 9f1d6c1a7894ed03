//! The tokens of a line.
ghost use Rattle.std.specs.Prelude.{◌≡◌, ◌<◌, ◌≤◌, ◌∷◌, ◌||◌, [], length, take, drop, option_map, position, IfSome, IsTrue, MatchOption};
ghost use Rattle.text_lines.specs.Columns.{begins_column};
ghost use Rattle.text_lines.specs.Headline.Lines.{is_blank};
ghost use Rattle.filter_reader.specs.Headline.Tokens.{is_mark, first_token, tokens};

use text_lines::{column_start, is_blank};

/// Whether the byte is a token by itself.
fn is_mark(byte: u8) -> bool
    ensures { result ≡ is_mark byte }
{
    byte == b':' || byte == b','
}

/// The place of the first byte that is blank or a mark.
fn end_of_word(text: &[u8]) -> Option<usize>
    ensures { result ≡ position (λ b. is_blank b || is_mark b) text.now }
{
    text.iter()
        .position(|&byte| is_blank(byte) || is_mark(byte))
}

/// The line from its first token on; none where no token is left.
pub fn from_token(line: &[u8]) -> Option<&[u8]>
    ensures token { MatchOption result (tokens line.now ≡ []) (λ text. (tokens line.now ≡ tokens text.now) × IsTrue (begins_column text.now)) }
    ensures within { IfSome result (λ text. length text.now ≤ length line.now) }
{
    match column_start(line) {
        Some(place) => Some(&line[place..]),
        None => None,
    }
}

/// How many bytes the token that the text begins with has.
fn token_len(text: &[u8]) -> usize
    requires { IsTrue (begins_column text.now) }
    ensures token { tokens text.now ≡ take result text.now ∷ tokens (drop result text.now) }
    ensures some { 0 < result }
    ensures within { result ≤ length text.now }
{
    if is_mark(text[0]) {
        return 1;
    }
    match end_of_word(text) {
        Some(end) => end,
        None => text.len(),
    }
}

/// The first token of the line, and what stands behind it; none where no token is left.
pub fn next_token(line: &[u8]) -> Option<(&[u8], &[u8])>
    ensures token { option_map (λ parts. (parts.0.now, tokens parts.1.now)) result ≡ first_token (tokens line.now) }
    ensures shorter { IfSome result (λ parts. length parts.1.now < length line.now) }
{
    let text = from_token(line)?;
    let len = token_len(text);
    Some((&text[..len], &text[len..]))
}
