//! The wider cubes that are tried for an entry: those that join it with another entry of its decision, and lose
//! bits in one field alone, or in both ports.

use crate::search::Search;
use entry_index::{SearchEntry, SearchTable, field, raised};
use razor_limits::Memory;
use ternary_words::Word;

/// The fields in which a wider cube loses bits.
#[derive(Clone, Copy, PartialEq, Eq, PartialOrd, Ord)]
pub(crate) enum Freed {
    Source,
    Destination,
    SourcePort,
    DestinationPort,
    Protocol,
    Ports,
}

/// The kinds of which each entry to join with is of one at least.
pub(crate) const WIDEST: [Freed; 4] = [
    Freed::Source,
    Freed::Destination,
    Freed::Protocol,
    Freed::Ports,
];

impl Freed {
    /// The bits of the fields.
    pub fn bits(self) -> u128 {
        match self {
            Freed::Source => field(0),
            Freed::Destination => field(1),
            Freed::SourcePort => field(2),
            Freed::DestinationPort => field(3),
            Freed::Protocol => field(4),
            Freed::Ports => field(2) | field(3),
        }
    }

    /// The least kind that has the lost bits.
    fn narrowed(self, lost: u128) -> Freed {
        match self {
            Freed::Ports if lost & field(2) == 0 => Freed::DestinationPort,
            Freed::Ports if lost & field(3) == 0 => Freed::SourcePort,
            freed => freed,
        }
    }
}

/// A wider cube, and how many bits the entry loses where it is joined with the other one.
#[derive(Clone, Copy)]
pub(crate) struct Candidate {
    pub freed: Freed,
    lost: u32,
    pub cube: Word,
}

impl Candidate {
    /// The cube that joins the entry with the other row, where both are of one decision and differ in these
    /// fields alone.
    fn joining(freed: Freed, entry: &SearchEntry, other: &SearchEntry) -> Option<Candidate> {
        let (own, word) = (entry.word, other.word);
        let lost = own.mask & (!word.mask | own.value ^ word.value);
        if lost & !freed.bits() != 0 || other.decision != entry.decision || other.is_fixed {
            return None;
        }
        Some(Candidate {
            freed: freed.narrowed(lost),
            lost: lost.count_ones(),
            cube: raised(own, lost),
        })
    }
}

impl Search {
    /// The entry's candidates: kind by kind, those that lose fewer bits first.
    pub fn candidates(
        &mut self,
        table: &SearchTable,
        id: usize,
        entry: &SearchEntry,
    ) -> Result<Vec<Candidate>, Memory> {
        let mut candidates = Vec::new(self.alloc);
        for freed in WIDEST {
            table.inside(
                entry.word,
                entry.decision,
                freed.bits(),
                &mut self.view,
                &mut self.inside,
            )?;
            push_candidates(&mut candidates, freed, entry, id, &self.inside)?;
        }
        candidates.sort_unstable_by_key(|one: &Candidate| (
            one.freed,
            one.lost,
            one.cube.mask,
            one.cube.value,
        ));
        candidates.dedup_by(|one, other| one.freed == other.freed && one.cube == other.cube);
        Ok(candidates)
    }
}

/// Puts the candidates of these rows but the entry itself behind the others.
fn push_candidates(
    candidates: &mut Vec<Candidate>,
    freed: Freed,
    entry: &SearchEntry,
    id: usize,
    rows: &[(usize, SearchEntry)],
) -> Result<(), Memory> {
    for (other, row) in rows {
        if *other != id
            && let Some(candidate) = Candidate::joining(freed, entry, row)
        {
            candidates.push(candidate)?;
        }
    }
    Ok(())
}
