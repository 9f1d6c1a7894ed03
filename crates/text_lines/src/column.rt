//! The columns of a line.
ghost use Rattle.std.specs.Prelude.{◌≡◌, ◌∷◌, ◌≤◌, [], length, take, drop, option_map, position, not, IfSome, IsTrue, MatchOption};
ghost use Rattle.text_lines.specs.Columns.{begins_column, behind_column, columns, first_column, from_first};
ghost use Rattle.text_lines.specs.Headline.Lines.{is_blank};

/// Whether the byte is a space or a tab.
pub fn is_blank(byte: u8) -> bool
    ensures { result ≡ is_blank byte }
{
    byte == b' ' || byte == b'\t'
}

/// The place of the first byte that isn't blank.
pub fn column_start(text: &[u8]) -> Option<usize>
    ensures { result ≡ position (λ b. not (is_blank b)) text.now }
{
    text.iter().position(|&byte| !is_blank(byte))
}

/// The place of the first blank.
fn first_blank(text: &[u8]) -> Option<usize>
    ensures { result ≡ position is_blank text.now }
{
    text.iter().position(|&byte| is_blank(byte))
}

/// The line from its first column on; none where no column is left.
fn from_column(line: &[u8]) -> Option<&[u8]>
    ensures columns { MatchOption result (columns line.now ≡ []) (λ text. (columns line.now ≡ columns text.now) × IsTrue (begins_column text.now)) }
    ensures from { IfSome result (λ text. text.now ≡ from_first (λ b. not (is_blank b)) line.now) }
{
    match column_start(line) {
        Some(place) => Some(&line[place..]),
        None => None,
    }
}

/// How many bytes the column that the text begins with has.
fn column_len(text: &[u8]) -> usize
    requires { IsTrue (begins_column text.now) }
    ensures column { columns text.now ≡ take result text.now ∷ columns (drop result text.now) }
    ensures rest { drop result text.now ≡ from_first is_blank text.now }
    ensures within { result ≤ length text.now }
{
    match first_blank(text) {
        Some(end) => end,
        None => text.len(),
    }
}

/// The first column of the line, and what stands behind it; none where no column is left. Blanks part
/// columns.
pub fn next_column(line: &[u8]) -> Option<(&[u8], &[u8])>
    ensures first { option_map (λ parts. (parts.0.now, columns parts.1.now)) result ≡ first_column (columns line.now) }
    ensures cut { MatchOption result (columns line.now ≡ []) (λ parts. columns line.now ≡ parts.0.now ∷ columns parts.1.now) }
    ensures behind { IfSome result (λ parts. parts.1.now ≡ behind_column line.now) }
{
    let text = from_column(line)?;
    let len = column_len(text);
    Some((&text[..len], &text[len..]))
}
