//! The entry that a line of a table's text spells.
ghost use Rattle.std.specs.Prelude.{◌≡◌, ◌≤◌, Ok, Err, MatchResult};
ghost use Rattle.std.specs.Option.{option_map};
ghost use Rattle.ternary_words.specs.Views.{word_of};
ghost use Rattle.table_text.specs.EntryViews.{line_of, spelled_view};
ghost use Rattle.table_text.specs.HeadingViews.{heading_view};
ghost use Rattle.table_text.specs.Reading.{columns_entry, entry_of, trits_entry, with_decision};

use crate::columns::{are_within, cut_columns, read_fields, word_of_fields};
use crate::error::TableReason;
use crate::heading::{Heading, Version};
use crate::names::decision;
use crate::spelling::Spelled;
use crate::trits::{are_trits, is_padded, word_of_trits};
use ternary_words::Word;
use text_lines::parts_at;

/// The entry of the word, if a decision stands at the end of the line.
fn with_decision<'a>(
    ended: bool,
    word: Word,
    text: Option<&'a [u8]>,
) -> Result<Spelled<'a>, TableReason>
    ensures { MatchResult result
        (λ spelled. with_decision ended (word_of word) (option_map (λ text. text.now) text.entry) ≡ Ok (spelled_view spelled))
        (λ reason. with_decision ended (word_of word) (option_map (λ text. text.now) text.entry) ≡ Err reason) }
{
    match text {
        Some(text) if ended => match decision(text) {
            Some(decision) => Ok(Spelled { word, decision }),
            None => Err(TableReason::Decision),
        },
        _ => Err(TableReason::Decision),
    }
}

/// The entry that a line of the first version spells.
#[tactic(auto, unfolding(crate::specs::Reading::trits_entry))]
fn trits_entry(line: &[u8], ended: bool, slot: u16) -> Result<Spelled<'_>, TableReason>
    requires { 104 ≤ slot }
    ensures { MatchResult result
        (λ spelled. trits_entry slot (line_of line.now ended) ≡ Ok (spelled_view spelled))
        (λ reason. trits_entry slot (line_of line.now ended) ≡ Err reason) }
{
    let (word, text) = parts_at(line, b' ');
    if word.len() != slot as usize {
        return Err(TableReason::WordLength);
    }
    if !are_trits(word) {
        return Err(TableReason::Trit);
    }
    if !is_padded(word) {
        return Err(TableReason::Padding);
    }
    with_decision(ended, word_of_trits(word), text)
}

/// The entry that a line of the second version spells.
#[tactic(auto, unfolding(crate::specs::Reading::columns_entry))]
pub fn columns_entry(line: &[u8], ended: bool) -> Result<Spelled<'_>, TableReason>
    ensures { MatchResult result
        (λ spelled. columns_entry (line_of line.now ended) ≡ Ok (spelled_view spelled))
        (λ reason. columns_entry (line_of line.now ended) ≡ Err reason) }
{
    let Some(columns) = cut_columns(line) else {
        return Err(TableReason::FieldForm);
    };
    let Some(fields) = read_fields(&columns) else {
        return Err(TableReason::FieldForm);
    };
    if !are_within(&fields) {
        return Err(TableReason::OutsideMask);
    }
    with_decision(ended, word_of_fields(&fields), columns.decision)
}

/// The entry that the line spells in the version of its table, or the first reason why it is bad.
pub(crate) fn entry<'a>(
    heading: &Heading,
    line: &'a [u8],
    ended: bool,
) -> Result<Spelled<'a>, TableReason>
    requires { 104 ≤ heading.now.slot.bits }
    ensures { MatchResult result
        (λ spelled. entry_of (heading_view heading.now) (line_of line.now ended) ≡ Ok (spelled_view spelled))
        (λ reason. entry_of (heading_view heading.now) (line_of line.now ended) ≡ Err reason) }
{
    match heading.version {
        Version::Trits => trits_entry(line, ended, heading.slot.bits),
        Version::Columns => columns_entry(line, ended),
    }
}
