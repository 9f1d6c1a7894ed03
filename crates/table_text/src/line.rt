//! The lines of a table's text.
ghost use Rattle.std.specs.Prelude.{◌≡◌, ◌≤◌, ◌<◌, ◌∷◌, [], length, IfSome, IfNone};
ghost use Rattle.table_text.specs.Lines.{lines_of};

use text_lines::split_once;

/// The first line of the text without its line feed, whether a line feed ends it, and what stands after
/// it; none where the text is empty.
pub fn next_line(text: &[u8]) -> Option<(&[u8], bool, &[u8])>
    ensures line { IfSome result (λ parts. lines_of text.now ≡ record { text = parts.0.now; ended = parts.1 } ∷ lines_of parts.2.now) }
    ensures shorter { IfSome result (λ parts. length parts.2.now < length text.now) }
    ensures none { IfNone result (text.now ≡ []) }
{
    if text.is_empty() {
        return None;
    }
    match split_once(text, b'\n') {
        Some((line, rest)) => Some((line, true, rest)),
        None => Some((text, false, &text[text.len()..])),
    }
}

/// How many lines the text has.
pub fn count_lines(text: &[u8]) -> u64
    ensures lines { result ≡ length (lines_of text.now) }
    ensures within { result ≤ length text.now }
{
    let mut rest = text;
    let mut count = 0u64;
    'lines: while let Some((_, _, after)) = next_line(rest) {
        count += 1;
        rest = after;
    }
    count
}
