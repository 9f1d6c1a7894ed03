//! Rows of entries, and entries of rows.

use entry_index::SearchEntry;
use razor_limits::Memory;
use std::alloc::Global;
use ternary_words::Entry;

/// Puts rows of these entries behind the others.
pub(crate) fn push_rows(
    rows: &mut Vec<SearchEntry>,
    entries: &[Entry],
    is_fixed: bool,
) -> Result<(), Memory> {
    for entry in entries {
        rows.push(SearchEntry {
            is_fixed,
            ..row_of(entry)
        })?;
    }
    Ok(())
}

/// The row of an entry.
pub(crate) fn row_of(entry: &Entry) -> SearchEntry {
    SearchEntry {
        word: entry.word,
        decision: entry.decision,
        is_fixed: false,
    }
}

/// The entry of a row.
pub(crate) fn entry_of(row: &SearchEntry) -> Entry {
    Entry {
        word: row.word,
        decision: row.decision,
    }
}

/// The entries of the rows.
pub(crate) fn entries_of(alloc: Global, rows: &[SearchEntry]) -> Result<Vec<Entry>, Memory> {
    let mut entries = Vec::with_capacity(alloc, rows.len())?;
    for row in rows {
        entries.push(entry_of(row))?;
    }
    Ok(entries)
}
