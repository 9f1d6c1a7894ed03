//! Words that are written trit by trit.
ghost use Rattle.std.specs.Prelude.{◌≡◌, ◌+◌, ◌*◌, ◌^◌, ◌<◌, ◌≤◌, ◌==◌, length, nat_eq, bit_and};
ghost use Rattle.std.specs.List.{list_all};
ghost use Rattle.ternary_words.specs.Views.{word_of};
ghost use Rattle.ternary_words.specs.Word.{trit};
ghost use Rattle.table_text.specs.Trits.{is_padded, is_trit, trit_of, word_of_trits};

use ternary_words::Word;

/// As many trits as the fields have together.
const FIELD_TRITS: usize = 104;

/// `*`, `0` or `1`.
fn is_trit(byte: u8) -> bool
    ensures { result ≡ is_trit byte }
{
    byte == b'*' || byte == b'0' || byte == b'1'
}

/// Whether each character is `*`, `0` or `1`.
pub(crate) fn are_trits(text: &[u8]) -> bool
    ensures { result ≡ list_all is_trit text.now }
{
    text.iter().all(|&byte| is_trit(byte))
}

/// Whether each character is `*`.
fn are_stars(text: &[u8]) -> bool
    ensures { result ≡ list_all (λ b. b == 42) text.now }
{
    text.iter().all(|&byte| byte == b'*')
}

/// Whether the characters past the fields are `*`.
pub(crate) fn is_padded(text: &[u8]) -> bool
    requires { 104 ≤ length text.now }
    ensures { result ≡ is_padded text.now }
{
    are_stars(&text[FIELD_TRITS..])
}

/// A bit of the mask and a bit of the value for a character.
fn bits_of(byte: u8) -> (u128, u128)
    ensures trit { trit (nat_eq result.0 1) (nat_eq result.1 1) ≡ trit_of byte }
    ensures mask { result.0 < 2 }
    ensures value { result.1 < 2 }
    ensures within { bit_and result.1 result.0 ≡ result.1 }
{
    match byte {
        b'*' => (0, 0),
        b'1' => (1, 1),
        _ => (1, 0),
    }
}

/// A bit behind those of a number.
fn with_bit(number: u128, bit: u128) -> u128
    requires small { number < 2 ^ 104 }
    requires bit { bit < 2 }
    ensures { result ≡ number * 2 + bit }
{
    number * 2 + bit
}

/// The word that the first characters spell.
pub(crate) fn word_of_trits(text: &[u8]) -> Word
    requires { 104 ≤ length text.now }
    ensures { word_of result ≡ word_of_trits text.now }
{
    let mut value = 0u128;
    let mut mask = 0u128;
    for &byte in &text[..FIELD_TRITS] {
        let (asks, bit) = bits_of(byte);
        value = with_bit(value, bit);
        mask = with_bit(mask, asks);
    }
    Word { value, mask }
}
