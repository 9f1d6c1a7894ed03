//! Numbers as texts write them.
ghost use Rattle.std.specs.Prelude.{◌≡◌, ◌≤◌, ◌^◌, min, Option, Some, None, IfSome, OnSome, if◌then◌else◌};
ghost use Rattle.std.specs.Char.{digit_value};
ghost use Rattle.std.specs.Str.{IsAscii};
ghost use Rattle.text_lines.specs.Headline.Numbers.{is_number, number_of, number_within, short_number};
ghost use Rattle.text_lines.specs.Numbers.{has_leading_zero, plain_number};

/// What the byte stands for as a digit: 0 to 9, then the letters in either case, and 36 for no digit.
pub fn digit(byte: u8) -> u64
    ensures { result ≡ digit_value byte }
{
    match byte {
        b'0'..=b'9' => u64::from(byte) - 48,
        b'A'..=b'Z' => u64::from(byte) - 55,
        b'a'..=b'z' => u64::from(byte) - 87,
        _ => 36,
    }
}

/// What the digits of the base stand for, or the cap where they stand for more; none where the text has another
/// byte than digits, or no digit.
///
/// It goes to the end of the text in any case: most texts are numbers.
pub fn number_up_to(text: &[u8], base: u64, cap: u64) -> Option<u64>
    requires base { 1 ≤ base }
    requires narrow { base ≤ 16 }
    requires cap { cap ≤ 2 ^ 32 }
    ensures value { result ≡ (if is_number base text.now then Some (min (number_of base text.now) cap) else None) }
    ensures ascii { OnSome result (IsAscii text.now) }
{
    if text.is_empty() {
        return None;
    }
    let mut number = 0u64;
    let mut all = true;
    for &byte in text {
        let digit = digit(byte);
        all &= digit < base;
        number = (number * base + digit).min(cap);
    }
    if all { Some(number) } else { None }
}

/// The number that the text writes in the base, leading zeros allowed; none where the text has another
/// byte than digits, no digit, or a number above `greatest`.
#[tactic(auto, unfolding(crate::specs::Headline::Numbers::number_within))]
pub fn number_within(text: &[u8], base: u64, greatest: u32) -> Option<u32>
    requires base { 1 ≤ base }
    requires narrow { base ≤ 16 }
    ensures value { result ≡ number_within base greatest text.now }
    ensures ascii { OnSome result (IsAscii text.now) }
    ensures within { IfSome result (λ n. n ≤ greatest) }
{
    let number = number_up_to(text, base, u64::from(greatest) + 1)?;
    if number <= u64::from(greatest) {
        Some(number as u32)
    } else {
        None
    }
}

/// The same, in at most so many digits.
#[tactic(auto, unfolding(crate::specs::Headline::Numbers::short_number))]
pub fn short_number(text: &[u8], most_digits: usize, base: u64, greatest: u32) -> Option<u32>
    requires base { 1 ≤ base }
    requires narrow { base ≤ 16 }
    ensures value { result ≡ short_number most_digits base greatest text.now }
    ensures within { IfSome result (λ n. n ≤ greatest) }
{
    if text.len() <= most_digits {
        number_within(text, base, greatest)
    } else {
        None
    }
}

/// Whether the first of two digits or more is a zero.
pub fn has_leading_zero(text: &[u8]) -> bool
    ensures { result ≡ has_leading_zero text.now }
{
    match text {
        [b'0', _, ..] => true,
        _ => false,
    }
}

/// The decimal number that the text writes without leading zeros; none where it writes none, or one
/// above `greatest`.
#[tactic(auto, unfolding(crate::specs::Numbers::plain_number))]
pub fn plain_number(text: &[u8], greatest: u32) -> Option<u32>
    ensures value { result ≡ plain_number greatest text.now }
    ensures ascii { OnSome result (IsAscii text.now) }
    ensures within { IfSome result (λ n. n ≤ greatest) }
{
    if has_leading_zero(text) {
        return None;
    }
    number_within(text, 10, greatest)
}
