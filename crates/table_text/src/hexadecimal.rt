//! Numbers in hexadecimal digits.
ghost use Rattle.std.specs.Prelude.{◌≡◌, ◌%◌, ◌∷◌, [], ◌++◌};
ghost use Rattle.field_boxes.specs.Headline.Bits.{bits};
ghost use Rattle.table_text.specs.Headline.Hexadecimal.{hex_digit, hex_digits};

/// The digits in rising order.
const DIGITS: [u8; 16] = *b"0123456789ABCDEF";

/// The lowest four bits as a digit.
fn digit(number: u32) -> u8
    ensures { result ≡ hex_digit (number % 16) }
{
    DIGITS[(number % 16) as usize]
}

/// The lowest 32 bits as eight digits, and the byte that stands behind them.
pub(crate) fn hexadecimal(number: u128, behind: u8) -> [u8; 9]
    ensures { result ≡ hex_digits (bits 32 number) ++ behind ∷ [] }
{
    let low = (number % (1 << 32)) as u32;
    [
        digit(low >> 28),
        digit(low >> 24),
        digit(low >> 20),
        digit(low >> 16),
        digit(low >> 12),
        digit(low >> 8),
        digit(low >> 4),
        digit(low),
        behind,
    ]
}
