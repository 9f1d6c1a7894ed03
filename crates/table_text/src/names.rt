//! What may be the name of an entry's decision.
ghost use Rattle.std.specs.Prelude.{◌≡◌, ◌∷◌, [], true, false, not, ◌&&◌, is_some, IfSome, IfNone};
ghost use Rattle.std.specs.Bool.{OnTrue};
ghost use Rattle.std.specs.Str.{IsAscii, bytes_eq};
ghost use Rattle.razor_limits.specs.declared.limits.TheConstants.{MOST_RULES};
ghost use Rattle.field_boxes.specs.Headline.Names.{miss};
ghost use Rattle.table_text.specs.Names.{is_decision, is_rule_name};
ghost use Rattle.text_lines.specs.Numbers.{plain_number};

use field_boxes::decision_word;
use razor_base::limits::MOST_RULES;
use text_lines::plain_number;

/// Whether the text is the word for no decision.
pub fn is_miss(text: &[u8]) -> bool
    ensures miss { result ≡ bytes_eq text.now miss }
    ensures ascii { OnTrue result (IsAscii text.now) }
{
    text == b"miss".as_slice()
}

/// Whether the text is a number from 1 to 65,536 without leading zeros.
fn rule_number(text: &[u8]) -> bool
    ensures number { result ≡ (not (bytes_eq text.now (48 ∷ [])) && is_some (plain_number MOST_RULES text.now)) }
    ensures ascii { OnTrue result (IsAscii text.now) }
{
    text != b"0".as_slice() && plain_number(text, MOST_RULES).is_some()
}

/// Whether the text is `#` and the number of a rule.
fn rule_name(text: &[u8]) -> bool
    ensures name { result ≡ is_rule_name text.now }
    ensures ascii { OnTrue result (IsAscii text.now) }
{
    match text {
        [b'#', digits @ ..] => rule_number(digits),
        _ => false,
    }
}

/// Whether the text is `miss`, a decision word, or `#` and the number of a rule.
fn is_decision(text: &[u8]) -> bool
    ensures decision { result ≡ is_decision text.now }
    ensures ascii { OnTrue result (IsAscii text.now) }
{
    is_miss(text) || decision_word(text) || rule_name(text)
}

/// The decision that the text is.
pub(crate) fn decision(text: &[u8]) -> Option<&str>
    ensures some { IfSome result (λ name. (name.now ≡ text.now) × (is_decision text.now ≡ true)) }
    ensures none { IfNone result (is_decision text.now ≡ false) }
{
    if !is_decision(text) {
        return None;
    }
    match str::from_utf8(text) {
        Ok(name) => Some(name),
        Err(_) => unreachable!(),
    }
}
