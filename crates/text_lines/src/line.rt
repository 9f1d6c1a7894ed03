//! The lines of a text.
ghost use Rattle.std.specs.Prelude.{◌≡◌, ◌<◌, ◌==◌, ◌∷◌, [], find, position, length, not, IfSome, IfNone, option_copied};
ghost use Rattle.std.specs.Char.{is_ascii};
ghost use Rattle.std.specs.List.{list_all};
ghost use Rattle.text_lines.specs.Headline.Lines.{is_blank, is_skipped, lines_of, text_lines, without_return};

use crate::column::is_blank;
use bstr::ByteSlice;

/// The place of the first line feed.
fn line_feed(text: &[u8]) -> Option<usize>
    ensures { result ≡ position (λ b. b == 10) text.now }
{
    text.find_byte(b'\n')
}

/// The first line of the text with all its bytes but the line feed, and what stands after it; none where
/// the text is empty.
pub fn next_whole_line(text: &[u8]) -> Option<(&[u8], &[u8])>
    ensures line { IfSome result (λ parts. lines_of text.now ≡ parts.0.now ∷ lines_of parts.1.now) }
    ensures shorter { IfSome result (λ parts. length parts.1.now < length text.now) }
    ensures none { IfNone result (text.now ≡ []) }
{
    if text.is_empty() {
        return None;
    }
    match line_feed(text) {
        Some(place) => Some((&text[..place], &text[place + 1..])),
        None => Some((text, &[])),
    }
}

/// The line, less one carriage return at its end.
pub fn without_return(line: &[u8]) -> &[u8]
    ensures { result.now ≡ without_return line.now }
{
    if line.ends_with(b"\r") {
        &line[..line.len() - 1]
    } else {
        line
    }
}

/// The first line of the text, less a carriage return at its end, and what stands after it; none where the
/// text is empty.
pub fn next_line(text: &[u8]) -> Option<(&[u8], &[u8])>
    ensures line { IfSome result (λ parts. text_lines text.now ≡ parts.0.now ∷ text_lines parts.1.now) }
    ensures shorter { IfSome result (λ parts. length parts.1.now < length text.now) }
    ensures none { IfNone result (text.now ≡ []) }
{
    let (line, rest) = next_whole_line(text)?;
    Some((without_return(line), rest))
}

/// The first byte that isn't blank.
fn first_byte(line: &[u8]) -> Option<&u8>
    ensures { option_copied result ≡ find (λ b. not (is_blank b)) line.now }
{
    line.iter().find(|byte| !is_blank(**byte))
}

/// Whether the line has blanks alone, or is a comment: its first byte that isn't blank is `#`.
pub fn is_skipped(line: &[u8]) -> bool
    ensures { result ≡ is_skipped line.now }
{
    match first_byte(line) {
        Some(byte) => *byte == b'#',
        None => true,
    }
}

/// Whether the line has no byte above 127.
///
/// It goes to the end of the line in any case, so that many bytes are looked at in one step.
pub fn is_ascii_line(line: &[u8]) -> bool
    ensures { result ≡ list_all is_ascii line.now }
{
    let mut all = true;
    for byte in line {
        all &= byte.is_ascii();
    }
    all
}
