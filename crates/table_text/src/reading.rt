//! Reading the text of a table whole.
ghost use Rattle.std.specs.Prelude.{◌≡◌, ◌+◌, ◌-◌, ◌^◌, ◌≤◌, ◌<◌, min, length, take, vec_len, Ok, Err, All, IfOk, IfSome, IfNone, IsTrue, MatchResult, OnOk, Some};
ghost use Rattle.razor_limits.specs.declared.limits.TheConstants.{MOST_ENTRIES};
ghost use Rattle.ternary_words.specs.Views as words;
ghost use Rattle.table_text.specs.Lines.{lines_of};
ghost use Rattle.table_text.specs.EntriesViews.{entries_view};
ghost use Rattle.table_text.specs.EntryViews.{line_of};
ghost use Rattle.table_text.specs.HeadingViews.{heading_view};
ghost use Rattle.table_text.specs.Names.{is_name};
ghost use Rattle.table_text.specs.Reading.{after_heading, counted, entries_of, entry_of, no_heading, table_in_text};
ghost use Rattle.table_text.specs.Refused.{IsBehind, table_view};
ghost use Rattle.table_text.specs.Seen.{names_seen};
ghost use Rattle.text_lines.specs.Headline.Reading.{at_line};
ghost use Rattle.text_lines.specs.Reading.{IsTextRefused};
ghost use Rattle.text_lines.specs.declared.error.TextError.TheVariants.{BadLine};
ghost use Rattle.table_text.specs.declared.error.TableReason.TheVariants.{Count};

use crate::entries::Entries;
use crate::entry::entry;
use crate::error::{TableError, TableReason};
use crate::heading::{Heading, read_heading};
use crate::line::{count_lines, next_line};
use std::alloc::Global;
use ternary_words::Table;

/// The table that the text spells in its version, or its first bad line.
///
/// The names are numbered in first-seen order. It goes over the text once, in time linear in its bytes,
/// and takes memory for the entries and the names alone.
pub fn read_table(alloc: Global, bytes: &[u8]) -> Result<Table, TableError>
    ensures table { MatchResult result
        (λ table. table_in_text bytes.now ≡ Ok (words.table_of table))
        (λ error. IsTextRefused error (table_in_text bytes.now)) }
    ensures names { IfOk result (λ table. names_seen (words.table_of table).entries ≡ table.names) }
    ensures spelled { IfOk result (λ table. All (λ name. IsTrue (is_name name)) table.names) }
{
    let Some((heading, lines)) = first_line(bytes) else {
        return Err(TableError::BadLine {
            line: 1,
            reason: TableReason::FirstLine,
        });
    };
    match read_entries(alloc, &heading, lines) {
        Ok(entries) => Ok(Table {
            slot: heading.slot,
            composed: heading.composed,
            entries: entries.entries,
            names: entries.names,
        }),
        Err(error) => Err(error),
    }
}

/// What the first line says, and the lines after it.
fn first_line(bytes: &[u8]) -> Option<(Heading, &[u8])>
    ensures some { IfSome result (λ parts. table_in_text bytes.now ≡ after_heading (Some (heading_view parts.0)) (lines_of parts.1.now)) }
    ensures none { IfNone result (table_in_text bytes.now ≡ no_heading) }
    ensures narrowest { IfSome result (λ parts. 104 ≤ parts.0.slot.bits) }
    ensures composed { IfSome result (λ parts. parts.0.composed ≤ MOST_ENTRIES) }
    ensures few { IfSome result (λ parts. parts.0.entries ≤ MOST_ENTRIES) }
{
    let (line, ended, lines) = next_line(bytes)?;
    if !ended {
        return None;
    }
    let heading = read_heading(line)?;
    Some((heading, lines))
}

/// The entries of the lines, which must be as many as the first line states.
fn read_entries(alloc: Global, heading: &Heading, lines: &[u8]) -> Result<Entries, TableError>
    requires width { 104 ≤ heading.now.slot.bits }
    requires few { heading.now.entries ≤ MOST_ENTRIES }
    ensures { MatchResult result
        (λ entries. counted (heading_view heading.now) (length (lines_of lines.now)) (entries_of (heading_view heading.now) 2 (take heading.now.entries (lines_of lines.now))) ≡ Ok (table_view (heading_view heading.now) (entries_view entries)))
        (λ error. IsTextRefused error (counted (heading_view heading.now) (length (lines_of lines.now)) (entries_of (heading_view heading.now) 2 (take heading.now.entries (lines_of lines.now))))) }
{
    let stated = heading.entries;
    let mut entries = Entries::new(alloc);
    let mut rest = lines;
    for place in 0..stated {
        let Some((line, ended, after)) = next_line(rest) else {
            return Err(count_differs(stated, u64::from(place)));
        };
        entries = match with_line(heading, line, ended, u64::from(place) + 2, entries) {
            Ok(entries) => entries,
            Err(error) => return Err(error),
        };
        rest = after;
    }
    let more = count_lines(rest);
    if more > 0 {
        return Err(count_differs(stated, u64::from(stated) + more));
    }
    Ok(entries)
}

/// Another number of lines was found than the first line states.
fn count_differs(stated: u32, found: u64) -> TableError
    requires { found < 2 ^ 64 - 2 }
    ensures { result ≡ BadLine (min stated found + 2) (Count stated found) }
{
    TableError::BadLine {
        line: u64::from(stated).min(found) + 2,
        reason: TableReason::Count { stated, found },
    }
}

/// The entries with that of the line of this number behind them.
fn with_line(
    heading: &Heading,
    line: &[u8],
    ended: bool,
    number: u64,
    entries: Entries,
) -> Result<Entries, TableError>
    requires width { 104 ≤ heading.now.slot.bits }
    requires room { vec_len entries.entries < MOST_ENTRIES }
    ensures read { MatchResult result
        (λ new. IsBehind (entries_view entries) (entry_of (heading_view heading.now) (line_of line.now ended)) (entries_view new))
        (λ error. IsTextRefused error (at_line number (entry_of (heading_view heading.now) (line_of line.now ended)))) }
    ensures one_more { IfOk result (λ new. vec_len new.entries ≡ vec_len entries.entries + 1) }
{
    match entry(heading, line, ended) {
        Ok(spelled) => match entries.with_entry(spelled.word, spelled.decision) {
            Ok(entries) => Ok(entries),
            Err(_) => Err(TableError::Memory),
        },
        Err(reason) => Err(TableError::BadLine {
            line: number,
            reason,
        }),
    }
}
