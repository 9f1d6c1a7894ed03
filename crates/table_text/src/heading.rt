//! The first line of a table's text.
ghost use Rattle.std.specs.Prelude.{◌≡◌, ◌≤◌, IfSome};
ghost use Rattle.std.specs.Option.{option_map};
ghost use Rattle.std.specs.Str.{bytes_eq};
ghost use Rattle.razor_limits.specs.declared.limits.TheConstants.{MOST_ENTRIES};
ghost use Rattle.table_text.specs.Heading.{heading_of, is_labelled, slot_of, version_of, words_of};
ghost use Rattle.table_text.specs.HeadingViews.{heading_view, words_view};

use razor_base::limits::MOST_ENTRIES;
use ternary_words::SlotWidth;
use text_lines::{plain_number, split_once};

/// How the words of the entries are spelled.
#[derive(Clone, Copy)]
pub(crate) enum Version {
    /// A character for each trit of the slot.
    Trits,
    /// A value and a mask for each field, in hexadecimal.
    Columns,
}

/// What the first line of a table's text says.
#[derive(Clone, Copy)]
pub(crate) struct Heading {
    pub(crate) version: Version,
    pub(crate) slot: SlotWidth,
    pub(crate) composed: u32,
    pub(crate) entries: u32,
}

/// The eight words of a first line, as they stand.
#[derive(Clone, Copy)]
pub struct HeadingWords<'a> {
    pub table: &'a [u8],
    pub version: &'a [u8],
    pub slot: &'a [u8],
    pub slot_number: &'a [u8],
    pub composed: &'a [u8],
    pub composed_number: &'a [u8],
    pub entries: &'a [u8],
    pub entries_number: &'a [u8],
}

/// The eight words of a line, with a space between them.
#[tactic(auto, unfolding(crate::specs::Heading::words_of))]
pub fn cut_words(line: &[u8]) -> Option<HeadingWords<'_>>
    ensures { option_map words_view result ≡ words_of line.now }
{
    let (table, rest) = split_once(line, b' ')?;
    let (version, rest) = split_once(rest, b' ')?;
    let (slot, rest) = split_once(rest, b' ')?;
    let (slot_number, rest) = split_once(rest, b' ')?;
    let (composed, rest) = split_once(rest, b' ')?;
    let (composed_number, rest) = split_once(rest, b' ')?;
    let (entries, entries_number) = split_once(rest, b' ')?;
    Some(HeadingWords {
        table,
        version,
        slot,
        slot_number,
        composed,
        composed_number,
        entries,
        entries_number,
    })
}

/// Whether the text is this word.
fn is(text: &[u8], word: &[u8]) -> bool
    ensures { result ≡ bytes_eq text.now word.now }
{
    text == word
}

fn read_version(text: &[u8]) -> Option<Version>
    ensures { result ≡ version_of text.now }
{
    if is(text, b"1") {
        Some(Version::Trits)
    } else if is(text, b"2") {
        Some(Version::Columns)
    } else {
        None
    }
}

/// 104, 144 or 288.
pub fn read_slot(text: &[u8]) -> Option<SlotWidth>
    ensures value { option_map (λ slot. slot.bits) result ≡ slot_of text.now }
    ensures narrowest { IfSome result (λ slot. 104 ≤ slot.bits) }
{
    if is(text, b"104") {
        Some(SlotWidth { bits: 104 })
    } else if is(text, b"144") {
        Some(SlotWidth { bits: 144 })
    } else if is(text, b"288") {
        Some(SlotWidth { bits: 288 })
    } else {
        None
    }
}

/// Whether the words that name the numbers stand in their places.
fn is_labelled(words: &HeadingWords<'_>) -> bool
    ensures { result ≡ is_labelled (words_view words.now) }
{
    is(words.table, b"table")
        && is(words.slot, b"slot")
        && is(words.composed, b"composed")
        && is(words.entries, b"entries")
}

/// What a first line says; none where it isn't `table V slot W composed C entries E` with a version, a
/// slot width, and numbers up to 262,144 without leading zeros.
#[tactic(auto, unfolding(crate::specs::Heading::heading_of))]
pub(crate) fn read_heading(line: &[u8]) -> Option<Heading>
    ensures heading { option_map heading_view result ≡ heading_of line.now }
    ensures narrowest { IfSome result (λ heading. 104 ≤ heading.slot.bits) }
    ensures composed { IfSome result (λ heading. heading.composed ≤ MOST_ENTRIES) }
    ensures few { IfSome result (λ heading. heading.entries ≤ MOST_ENTRIES) }
{
    let words = cut_words(line)?;
    let version = read_version(words.version)?;
    let slot = read_slot(words.slot_number)?;
    let composed = plain_number(words.composed_number, MOST_ENTRIES)?;
    let entries = plain_number(words.entries_number, MOST_ENTRIES)?;
    if !is_labelled(&words) {
        return None;
    }
    Some(Heading {
        version,
        slot,
        composed,
        entries,
    })
}
