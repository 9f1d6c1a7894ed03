//! The first line of a memory's text, and of a plan's.
ghost use Rattle.std.specs.Prelude.{◌≡◌, ◌≤◌, ◌<◌, IfSome};
ghost use Rattle.std.specs.Option.{option_map};
ghost use Rattle.std.specs.Str.{bytes_eq};
ghost use Rattle.razor_limits.specs.declared.limits.TheConstants.{MOST_ENTRIES};
ghost use Rattle.table_text.specs.HeadingViews.{words_view};
ghost use Rattle.memory_text.specs.declared.TheConstants.{MOST_WRITES};
ghost use Rattle.memory_text.specs.Heading.{heading_of, is_labelled, most_lines, number_from_one, slot_numbered};
ghost use Rattle.memory_text.specs.Views.{heading_view};

use crate::MOST_WRITES;
use crate::kind::TextKind;
use razor_base::limits::MOST_ENTRIES;
use table_text::{HeadingWords, cut_words, read_slot};
use ternary_words::SlotWidth;
use text_lines::plain_number;

/// How many slots there are, how wide they are, and how many lines follow.
#[derive(Clone, Copy)]
pub(crate) struct Heading {
    pub(crate) slots: u32,
    pub(crate) width: SlotWidth,
    pub(crate) lines: u32,
}

/// The number from 1 to the greatest that the text writes without leading zeros.
#[tactic(auto, unfolding(crate::specs::Heading::number_from_one))]
fn number_from_one(text: &[u8], greatest: u32) -> Option<u32>
    ensures value { result ≡ number_from_one greatest text.now }
    ensures within { IfSome result (λ n. (1 ≤ n) × (n ≤ greatest)) }
{
    let number = plain_number(text, greatest)?;
    if number == 0 {
        return None;
    }
    Some(number)
}

/// The slot whose number, from 1 on, the text writes.
pub(crate) fn slot_numbered(text: &[u8], slots: u32) -> Option<u32>
    ensures slot { result ≡ slot_numbered slots text.now }
    ensures within { IfSome result (λ slot. slot < slots) }
{
    let number = number_from_one(text, slots)?;
    Some(number - 1)
}

/// Whether the text is this word.
fn is(text: &[u8], word: &str) -> bool
    ensures { result ≡ bytes_eq text.now word.now }
{
    text == word.as_bytes()
}

/// Whether the words that name the numbers stand in their places.
fn is_labelled(kind: TextKind, words: &HeadingWords<'_>) -> bool
    ensures { result ≡ is_labelled kind (words_view words.now) }
{
    is(words.table, kind.word())
        && is(words.version, "1")
        && is(words.slot, "slots")
        && is(words.composed, "width")
        && is(words.entries, kind.lines_word())
}

/// How many lines may follow.
fn most_lines(kind: TextKind, slots: u32) -> u32
    requires { slots ≤ MOST_ENTRIES }
    ensures lines { result ≡ most_lines kind slots }
    ensures within { result ≤ MOST_WRITES }
{
    match kind {
        TextKind::Memory => slots,
        TextKind::Plan => MOST_WRITES,
    }
}

/// What a first line says; none where it isn't of the form, with a slot width and numbers without leading zeros.
#[tactic(auto, unfolding(crate::specs::Heading::heading_of))]
pub(crate) fn read_heading(kind: TextKind, line: &[u8]) -> Option<Heading>
    ensures heading { option_map heading_view result ≡ heading_of kind line.now }
    ensures some { IfSome result (λ heading. 1 ≤ heading.slots) }
    ensures few { IfSome result (λ heading. heading.slots ≤ MOST_ENTRIES) }
    ensures lines { IfSome result (λ heading. heading.lines ≤ MOST_WRITES) }
{
    let words = cut_words(line)?;
    let slots = number_from_one(words.slot_number, MOST_ENTRIES)?;
    let width = read_slot(words.composed_number)?;
    let lines = plain_number(words.entries_number, most_lines(kind, slots))?;
    if !is_labelled(kind, &words) {
        return None;
    }
    Some(Heading {
        slots,
        width,
        lines,
    })
}
