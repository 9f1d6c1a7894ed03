//! Widening an entry, so that others become redundant.

use crate::candidates::Candidate;
use crate::effort::TRIES;
use crate::judging::{Gain, Hurdle};
use crate::search::Search;
use entry_index::{SearchEntry, SearchTable};
use razor_limits::Memory;
use word_cover::hull;

impl Search {
    /// Widens these entries from the last to the first as often as that makes the table shorter, then takes out
    /// what is redundant.
    pub fn pass(&mut self, table: &mut SearchTable, ids: &[usize]) -> Result<(), Memory> {
        for id in ids.iter().rev() {
            self.widen_often(table, *id)?;
        }
        table.tight(false)
    }

    /// Widens the entry until the table doesn't get shorter any more.
    pub fn widen_often(&mut self, table: &mut SearchTable, id: usize) -> Result<(), Memory> {
        for _ in 0..table.len() {
            if !table.stands(id) || !self.widen(table, id)? {
                break;
            }
        }
        Ok(())
    }

    /// One try to widen the entry so that the table gets shorter; whether it did.
    fn widen(&mut self, table: &mut SearchTable, id: usize) -> Result<bool, Memory> {
        if table.is_fixed(id) || self.knows(table, id) {
            return Ok(false);
        }
        self.tried.clear();
        let gain = self.best_gain(table, id)?;
        self.note_tried(table, id)?;
        let entry = table.row(id);
        let shorter = match gain {
            Some(gain) => self.take_gain(table, id, &entry, &gain)?,
            None => false,
        };
        if !shorter {
            self.note_failure(table, id, entry.word);
        }
        Ok(shorter)
    }

    /// The best that is found for the entry, once it went down as far as it can.
    fn best_gain(&mut self, table: &mut SearchTable, id: usize) -> Result<Option<Gain>, Memory> {
        if !table.sink(id, self.most)? {
            return Ok(None);
        }
        let entry = table.row(id);
        let candidates = self.candidates(table, id, &entry)?;
        let mut best = None;
        for list in candidates.chunk_by(|one, other| one.freed == other.freed) {
            let list = list.get(..TRIES).unwrap_or(list);
            self.judge_each(table, id, &entry, list, &mut best)?;
        }
        Ok(best)
    }

    /// Judges candidates of one kind.
    fn judge_each(
        &mut self,
        table: &SearchTable,
        id: usize,
        entry: &SearchEntry,
        list: &[Candidate],
        best: &mut Option<Gain>,
    ) -> Result<(), Memory> {
        let around = list
            .iter()
            .fold(entry.word, |around, one| hull(&around, &one.cube));
        if !table.small(around, Some(id), self.most, &mut self.view)? {
            return Ok(());
        }
        self.tried.push(around)?;
        self.judging.begin(&self.view, around)?;
        for one in list {
            let saved = best.as_ref().map_or(0, |best| best.saved);
            let hurdle = Hurdle {
                flat: self.flat,
                saved,
            };
            if let Some(gain) = self.judging.judge(&self.view, entry, one.cube, hurdle)?
                && best.as_ref().is_none_or(|best| gain.is_better(best))
            {
                *best = Some(gain);
            }
        }
        Ok(())
    }
}
