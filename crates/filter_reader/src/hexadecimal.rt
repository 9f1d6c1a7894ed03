//! Hexadecimal numbers as a filter list writes them.
ghost use Rattle.std.specs.Prelude.{◌≡◌, ◌≤◌, IfSome};
ghost use Rattle.filter_reader.specs.Headline.Masks.{hex_number, value_and_mask};

use text_lines::{short_number, split_once};

/// The number that `0x` and at most so many hexadecimal digits write; none where it is above `greatest`.
#[tactic(auto, unfolding(crate::specs::Headline::Masks::hex_number))]
fn hex_number(text: &[u8], most_digits: usize, greatest: u32) -> Option<u32>
    ensures value { result ≡ hex_number most_digits greatest text.now }
    ensures within { IfSome result (λ n. n ≤ greatest) }
{
    match text {
        [b'0', b'x' | b'X', digits @ ..] => short_number(digits, most_digits, 16, greatest),
        _ => None,
    }
}

/// The value and the mask that `0xP/0xM` writes, each in at most so many digits.
#[tactic(auto, unfolding(crate::specs::Headline::Masks::value_and_mask))]
pub fn value_and_mask(text: &[u8], most_digits: usize, greatest: u32) -> Option<(u32, u32)>
    ensures read { result ≡ value_and_mask most_digits greatest text.now }
    ensures value { IfSome result (λ parts. parts.0 ≤ greatest) }
{
    let (value, mask) = split_once(text, b'/')?;
    let value = hex_number(value, most_digits, greatest)?;
    let mask = hex_number(mask, most_digits, greatest)?;
    Some((value, mask))
}
