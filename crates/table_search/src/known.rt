//! What is known of entries that were tried before.

use crate::candidates::WIDEST;
use crate::search::Search;
use entry_index::{Failed, SearchEntry, SearchTable};
use razor_limits::Memory;
use ternary_words::Word;
use word_cover::{hull, inside};

impl Search {
    /// Whether nothing changed since the entry last failed that may matter to it.
    pub fn knows(&self, table: &SearchTable, id: usize) -> bool {
        let Some(mark) = table.mark(id) else {
            return false;
        };
        let turn = usize::from(self.flat);
        let (Some(Some(failed)), Some(tried)) = (mark.failed.get(turn), mark.tried.get(turn)) else {
            return false;
        };
        let row = table.row(id);
        if failed.cube != row.word || failed.most < self.most {
            return false;
        }
        let told = table.log_since(failed.since);
        !told
            .iter()
            .any(|(cube, decision)| matters(*cube, *decision, &row, tried))
    }

    /// Notes that the entry with this cube failed.
    pub fn note_failure(&self, table: &mut SearchTable, id: usize, cube: Word) {
        let since = table.log_len();
        let turn = usize::from(self.flat);
        let most = self.most;
        if let Some(mark) = table.mark_mut(id)
            && let Some(failed) = mark.failed.get_mut(turn)
        {
            *failed = Some(Failed { since, most, cube });
        }
    }

    /// Notes the cubes that were looked at for the entry.
    pub fn note_tried(&self, table: &mut SearchTable, id: usize) -> Result<(), Memory> {
        let turn = usize::from(self.flat);
        if let Some(mark) = table.mark_mut(id)
            && let Some(tried) = mark.tried.get_mut(turn)
        {
            tried.clear();
            tried.extend_from_slice(&self.tried)?;
        }
        Ok(())
    }
}

/// Whether a cube that the log told matters to a row for which these cubes were tried: it lies in one of them, or
/// is one to join with.
fn matters(cube: Word, decision: u32, row: &SearchEntry, tried: &[Word]) -> bool {
    tried.iter().any(|wide| inside(&cube, wide))
        || decision == row.decision && can_join(row.word, cube)
}

/// Whether the cube that joins both loses bits of one kind alone.
fn can_join(own: Word, other: Word) -> bool {
    let lost = own.mask & !hull(&own, &other).mask;
    WIDEST.iter().any(|freed| lost & !freed.bits() == 0)
}
