//! What must stand in front of a wider cube, so that no header gets another answer.
//!
//! The part of the cube that no row of its group holds is parted into pieces. On each piece the rows of the view
//! that answer there now are put in front of the cube, cut to the piece; those of the cube's own decision only in
//! front of another.

use entry_index::{SearchEntry, View, covered, sharp};
use razor_limits::Memory;
use std::alloc::Global;
use ternary_words::Word;
use word_cover::{meet, meets};

/// A cube that is to stand at the place of a view, in place of the entry and of a group of rows.
#[derive(Clone, Copy)]
pub(crate) struct Wish<'a> {
    pub view: &'a View,
    pub cube: Word,
    pub decision: u32,
    /// The cubes of the entry and of its group.
    pub own: &'a [Word],
    /// The rising places of the group's rows, which count as absent.
    pub gone: &'a [usize],
    /// Exceptions that may be needed.
    pub most: usize,
}

/// A row that meets the cube, and whether it stands before the place.
#[derive(Clone, Copy)]
struct Near {
    before: bool,
    row: SearchEntry,
}

/// The exceptions, in order; none where more than `most` are needed, or too many pieces.
pub(crate) fn exceptions(
    alloc: Global,
    wish: &Wish,
    stack: &mut Vec<Word>,
) -> Result<Option<Vec<SearchEntry>>, Memory> {
    let Some(pieces) = sharp(alloc, wish.cube, wish.own)? else {
        return Ok(None);
    };
    let near = rows_near(alloc, wish)?;
    let mut reading = Reading::new(alloc, wish);
    let mut found = Vec::new(alloc);
    for piece in &pieces {
        reading.begin(*piece, wish.most.saturating_sub(found.len()));
        if !reading.read(&near, stack)? {
            return Ok(None);
        }
        reading.put_needed(&mut found)?;
        if found.len() > wish.most {
            return Ok(None);
        }
    }
    Ok(Some(found))
}

/// The rows that meet the wish's cube and aren't absent.
fn rows_near(alloc: Global, wish: &Wish) -> Result<Vec<Near>, Memory> {
    let mut near = Vec::new(alloc);
    for (place, row) in wish.view.rows.iter().enumerate() {
        if meets(&row.word, &wish.cube) && wish.gone.binary_search(&place).is_err() {
            near.push(Near {
                before: place < wish.view.at,
                row: *row,
            })?;
        }
    }
    Ok(near)
}

/// What answers the headers of one piece.
#[derive(Drop)]
struct Reading {
    piece: Word,
    decision: u32,
    /// Rows of other decisions that may be needed.
    room: usize,
    others: usize,
    /// The cubes of the rows so far, cut to the piece.
    above: Vec<Word>,
    /// The rows that answer some header, behind the place, cut to the piece.
    rows: Vec<SearchEntry>,
}

impl Reading {
    fn new(alloc: Global, wish: &Wish) -> Reading {
        Reading {
            piece: wish.cube,
            decision: wish.decision,
            room: wish.most,
            others: 0,
            above: Vec::new(alloc),
            rows: Vec::new(alloc),
        }
    }

    /// Turns to another piece.
    fn begin(&mut self, piece: Word, room: usize) {
        self.piece = piece;
        self.room = room;
        self.others = 0;
        self.above.clear();
        self.rows.clear();
    }

    /// Reads the rows until one holds the whole piece; false where too many are needed.
    fn read(&mut self, near: &[Near], stack: &mut Vec<Word>) -> Result<bool, Memory> {
        for found in near {
            if !meets(&found.row.word, &self.piece) {
                continue;
            }
            let cut = meet(&self.piece, &found.row.word);
            if !found.before && !covered(cut, &self.above, stack)? {
                self.push(cut, found.row.decision)?;
                if self.others > self.room {
                    return Ok(false);
                }
            }
            if cut == self.piece {
                return Ok(true);
            }
            self.above.push(cut)?;
        }
        if self.decision != 0 && !covered(self.piece, &self.above, stack)? {
            self.push(self.piece, 0)?;
        }
        Ok(true)
    }

    fn push(&mut self, cube: Word, decision: u32) -> Result<(), Memory> {
        self.others = self
            .others
            .saturating_add(usize::from(decision != self.decision));
        self.rows.push(SearchEntry {
            word: cube,
            decision,
            is_fixed: false,
        })?;
        Ok(())
    }

    /// Puts the rows behind the others, in order; one of the own decision only where it stands in front of another.
    fn put_needed(&self, found: &mut Vec<SearchEntry>) -> Result<(), Memory> {
        let from = found.len();
        for row in self.rows.iter().rev() {
            if row.decision != self.decision || hides(found, from, row) {
                found.push(*row)?;
            }
        }
        if let Some(added) = found.as_mut_slice().get_mut(from..) {
            added.reverse();
        }
        Ok(())
    }
}

/// Whether the row meets one of another decision among these from the place on.
fn hides(rows: &[SearchEntry], from: usize, row: &SearchEntry) -> bool {
    match rows.get(from..) {
        Some(behind) => behind.iter().any(|other| other.decision != row.decision
            && meets(&other.word, &row.word)),
        None => false,
    }
}
