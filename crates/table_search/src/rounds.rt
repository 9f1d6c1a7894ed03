//! The search over one table, round by round.

use crate::draws::Draws;
use crate::effort::{EARLY_REACH, FIRST_LAST, FIRST_REACH, LEAST_SAVED, NEIGHBOURS, ROUNDS};
use crate::rows::{entries_of, push_rows};
use crate::search::Search;
use entry_index::SearchTable;
use razor_limits::Memory;
use std::alloc::Global;
use ternary_words::Entry;
use word_cover::meets;

/// The search over one table, round by round. In every second round changes that gain nothing are made too.
///
/// After an error the entries aren't to be used any more.
#[derive(Drop)]
pub struct Shortening {
    alloc: Global,
    table: SearchTable,
    search: Search,
    draws: Draws,
    round: usize,
    /// How many rows may meet a cube that is looked at from the fourth round on.
    most: usize,
    /// How many rows the last round saved.
    saved: usize,
}

impl Shortening {
    /// Begins with the table's entries; redundant ones are taken out at once.
    pub fn new(alloc: Global, entries: &[Entry]) -> Result<Shortening, Memory> {
        let mut rows = Vec::with_capacity(alloc, entries.len())?;
        push_rows(&mut rows, entries, false)?;
        let mut table = SearchTable::new(alloc, &rows)?;
        table.tight(true)?;
        Ok(Shortening {
            alloc,
            most: last_reach(table.len()),
            table,
            search: Search::new(alloc),
            draws: Draws::new(),
            round: 0,
            saved: 0,
        })
    }

    /// One round: widens, and in every second round, or where the first one gains little, primes, tries windows and narrows
    /// all entries; so what is known of entries that were tried in vain holds through the round between. Whether another
    /// may gain; at most 40 do.
    pub fn round(&mut self) -> Result<bool, Memory> {
        if self.round >= ROUNDS {
            return Ok(false);
        }
        let before = self.table.len();
        self.widen()?;
        let widened = before.saturating_sub(self.table.len());
        let thorough = self.search.flat || self.round == 0 && widened <= before / 100;
        if thorough {
            self.prime()?;
            self.search.windows(&mut self.table)?;
        }
        self.narrow(thorough)?;
        Ok(self.goes_on(before))
    }

    /// The entries as they are now.
    pub fn entries(&self) -> Result<Vec<Entry>, Memory> {
        entries_of(self.alloc, &self.table.rows(self.alloc)?)
    }

    /// Widens each entry.
    fn widen(&mut self) -> Result<(), Memory> {
        self.search.flat = self.round % 2 == 1;
        self.search.most = match self.round {
            0 => FIRST_REACH,
            1 | 2 => self.most.min(EARLY_REACH),
            _ => self.most,
        };
        self.table.spread()?;
        let ids = self.table.ids(self.alloc)?;
        self.search.pass(&mut self.table, &ids)
    }

    /// Widens each entry freely, in a drawn order of the fields, and takes out what is redundant.
    fn prime(&mut self) -> Result<(), Memory> {
        for id in self.table.ids(self.alloc)?.iter().rev() {
            let order = self.draws.order();
            self.table.prime(*id, &order, self.search.most)?;
        }
        self.table.tight(true)
    }

    /// Narrows each entry whose neighbourhood changed, or all, and takes out what is redundant.
    fn narrow(&mut self, all: bool) -> Result<(), Memory> {
        for id in self.table.ids(self.alloc)?.iter().rev() {
            if all || self.has_news(*id) {
                self.table.reduce(*id, self.search.most)?;
            }
        }
        self.table.tight(all)?;
        self.table.tell_all()?;
        self.note_narrowed()
    }

    /// Whether the log told a cube that meets the entry's since it was narrowed.
    fn has_news(&self, id: usize) -> bool {
        let cube = self.table.row(id).word;
        match self.table.mark(id).and_then(|mark| mark.narrowed) {
            Some(since) => self
                .table
                .log_since(since)
                .iter()
                .any(|told| meets(&told.0, &cube)),
            None => true,
        }
    }

    /// Notes that all entries are narrow.
    fn note_narrowed(&mut self) -> Result<(), Memory> {
        let now = self.table.log_len();
        for id in &self.table.ids(self.alloc)? {
            if let Some(mark) = self.table.mark_mut(*id) {
                mark.narrowed = Some(now);
            }
        }
        Ok(())
    }

    /// Ends the round that began with so many entries: whether another may gain. A round with flat changes and one
    /// without must both gain next to nothing to end the search.
    fn goes_on(&mut self, before: usize) -> bool {
        let saved = before.saturating_sub(self.table.len());
        let both = saved.saturating_add(self.saved);
        let little = both <= self.table.len().saturating_mul(LEAST_SAVED) / 10_000;
        let may_end = self.round >= FIRST_LAST;
        self.saved = saved;
        self.round = self.round.saturating_add(1);
        self.round < ROUNDS && !(may_end && little)
    }
}

/// How many rows may meet a cube in late rounds of a table of so many rows: a power of two.
fn last_reach(rows: usize) -> usize {
    let reach = NEIGHBOURS.checked_div(rows).unwrap_or(NEIGHBOURS);
    match reach {
        0..=512 => 512,
        513..=1024 => 1024,
        1025..=2048 => 2048,
        _ => 4096,
    }
}
