//! The words of the first line.
ghost use Rattle.std.specs.Prelude.{◌≡◌, ◌++◌, ◌||◌, nat_eq};
ghost use Rattle.agreement_check.specs.Texts.{counts_due, due_at, header_due, number_due, text_due};

use text_lines::plain_number;

/// The words of a first line that states no header, and of one that does.
const WITHOUT_HEADER: usize = 6;

const WITH_HEADER: usize = 12;

/// Whether a first line may have so many words.
pub(crate) fn is_whole(words: usize) -> bool
    ensures { result ≡ nat_eq words 6 || nat_eq words 12 }
{
    words == WITHOUT_HEADER || words == WITH_HEADER
}

/// No number, where the word is this text.
fn text(word: &[u8], due: &[u8]) -> Option<Option<u32>>
    ensures { result ≡ text_due due.now word.now }
{
    if word == due { Some(None) } else { None }
}

/// The number that the word writes, up to the greatest.
fn number(word: &[u8], greatest: u32) -> Option<Option<u32>>
    ensures { result ≡ number_due greatest word.now }
{
    let number = plain_number(word, greatest)?;
    Some(Some(number))
}

/// The number in a word of the first line, if one is due at this place; none where the word isn't what is due.
pub(crate) fn first_word(place: usize, word: &[u8]) -> Option<Option<u32>>
    ensures { result ≡ due_at (counts_due ++ header_due) place word.now }
{
    match place {
        0 => text(word, b"proof"),
        1 => text(word, b"1"),
        2 => text(word, b"rules"),
        3 | 5 => number(word, u32::MAX),
        4 => text(word, b"entries"),
        6 => text(word, b"before"),
        7 | 8 => number(word, u32::MAX),
        9 | 10 => number(word, 65_535),
        11 => number(word, 255),
        _ => None,
    }
}
