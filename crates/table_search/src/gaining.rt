//! Giving an entry its wider cube.

use crate::judging::Gain;
use crate::search::Search;
use entry_index::{SearchEntry, SearchTable, free_for};
use razor_limits::Memory;
use ternary_words::Word;
use word_cover::inside;

impl Search {
    /// Gives the entry the cube and puts the exceptions in front of it, where enough others become redundant;
    /// whether the table is shorter then.
    pub fn take_gain(
        &mut self,
        table: &mut SearchTable,
        id: usize,
        entry: &SearchEntry,
        gain: &Gain,
    ) -> Result<bool, Memory> {
        table.view(gain.cube, Some(id), &mut self.view)?;
        self.set_rows(entry, gain)?;
        let gone = self.redundant(entry, gain)?;
        let shorter = gone.len() > gain.exceptions.len();
        if shorter || self.flat && gone.len() == gain.exceptions.len() {
            table.set(id, gain.cube);
            table.tell(id)?;
            put_all(table, Some(id), &gain.exceptions)?;
            take_all(table, &gone)?;
        }
        Ok(shorter)
    }

    /// The view's rows as they are then.
    fn set_rows(&mut self, entry: &SearchEntry, gain: &Gain) -> Result<(), Memory> {
        let rows = self.view.rows.as_slice();
        let (before, behind) = rows.split_at_checked(self.view.at).unwrap_or((rows, &[]));
        self.rows.clear();
        self.rows.extend_from_slice(before)?;
        self.rows.extend_from_slice(&gain.exceptions)?;
        self.rows.push(SearchEntry {
            word: gain.cube,
            ..*entry
        })?;
        self.rows.extend_from_slice(behind)?;
        Ok(())
    }

    /// The ids of the rows that are redundant then, from the last to the first; all that may be lie inside of the
    /// cube.
    fn redundant(&mut self, entry: &SearchEntry, gain: &Gain) -> Result<Vec<usize>, Memory> {
        let mut gone = Vec::new(self.alloc);
        let added = gain.exceptions.len().saturating_add(1);
        for (place, row) in self.view.rows.iter().enumerate().rev() {
            let behind = place >= self.view.at;
            if row.is_fixed
                || !inside(&row.word, &gain.cube)
                || !behind && row.decision != entry.decision
            {
                continue;
            }
            let here = if behind {
                place.saturating_add(added)
            } else {
                place
            };
            if drop_redundant(&mut self.rows, here, &mut self.scratch)?
                && let Some(id) = self.view.ids.get(place)
            {
                gone.push(*id)?;
            }
        }
        Ok(gone)
    }
}

/// Takes the row at the place out where it is redundant; whether it was.
fn drop_redundant(
    rows: &mut Vec<SearchEntry>,
    place: usize,
    scratch: &mut Vec<Word>,
) -> Result<bool, Memory> {
    let Some(row) = rows.get(place).copied() else {
        return Ok(false);
    };
    if !free_for(
        rows,
        place,
        row.word,
        row.decision,
        None,
        Some(place),
        scratch,
    )? {
        return Ok(false);
    }
    rows.remove(place);
    Ok(true)
}

/// Puts the rows right before another, or behind the last.
pub(crate) fn put_all(
    table: &mut SearchTable,
    before: Option<usize>,
    rows: &[SearchEntry],
) -> Result<(), Memory> {
    for row in rows {
        table.put(before, *row)?;
    }
    Ok(())
}

/// Takes these rows out.
fn take_all(table: &mut SearchTable, ids: &[usize]) -> Result<(), Memory> {
    for id in ids {
        table.take(*id)?;
    }
    Ok(())
}
