//! Cutting a text at a separator.
ghost use Rattle.std.specs.Prelude.{◌≡◌, ◌==◌, position};
ghost use Rattle.std.specs.Option.{option_map, option_copied};
ghost use Rattle.text_lines.specs.Headline.Cuts.{parts_at, split_once};

/// The place of the first separator.
fn place_of(text: &[u8], separator: u8) -> Option<usize>
    ensures { result ≡ position (λ b. b == separator) text.now }
{
    text.iter().position(|&byte| byte == separator)
}

/// What stands before the first separator, and what stands after it; none where there is no separator.
pub fn split_once(text: &[u8], separator: u8) -> Option<(&[u8], &[u8])>
    ensures { option_map (λ parts. (parts.0.now, parts.1.now)) result ≡ split_once separator text.now }
{
    let place = place_of(text, separator)?;
    Some((&text[..place], &text[place + 1..]))
}

/// What stands before the first separator, and what stands after it; the whole text and none where there
/// is no separator.
pub fn parts_at(text: &[u8], separator: u8) -> (&[u8], Option<&[u8]>)
    ensures { (result.0.now, option_copied result.1) ≡ parts_at separator text.now }
{
    match split_once(text, separator) {
        Some((before, after)) => (before, Some(after)),
        None => (text, None),
    }
}
