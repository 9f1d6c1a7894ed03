//! What may be the name of a decision.
ghost use Rattle.std.specs.Prelude.{◌≡◌, ◌≢◌};
ghost use Rattle.std.specs.Bool.{OnTrue};
ghost use Rattle.std.specs.Str.{IsAscii};
ghost use Rattle.std.specs.List.{list_all};
ghost use Rattle.field_boxes.specs.Headline.Names.{miss, has_word_form, is_word_byte};
ghost use Rattle.field_boxes.specs.Names.{is_decision_word};

/// Whether the byte may stand in a decision word: a letter of ASCII, a digit, `_`, `-` or `.`.
fn word_byte(byte: u8) -> bool
    ensures { result ≡ is_word_byte byte }
{
    byte.is_ascii_alphanumeric() || byte == b'_' || byte == b'-' || byte == b'.'
}

fn word_bytes(text: &[u8]) -> bool
    ensures { result ≡ list_all is_word_byte text.now }
{
    text.iter().all(|&byte| word_byte(byte))
}

/// Whether the text has 1 to 32 such bytes and no other.
fn word_form(text: &[u8]) -> bool
    ensures { result ≡ has_word_form text.now }
{
    1 <= text.len() && text.len() <= 32 && word_bytes(text)
}

/// Whether the text is a decision word: 1 to 32 letters of ASCII, digits, `_`, `-` and `.`, and not
/// `miss`.
pub fn decision_word(text: &[u8]) -> bool
    ensures word { result ≡ is_decision_word text.now }
    ensures ascii { OnTrue result (IsAscii text.now) }
    ensures named { OnTrue result (text.now ≢ miss) }
{
    word_form(text) && text != b"miss".as_slice()
}
