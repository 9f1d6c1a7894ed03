//! Where a cube may stand in a table.

use crate::covers::covered_at;
use crate::search_entry::SearchEntry;
use razor_limits::Memory;
use ternary_words::Word;
use word_cover::{inside, meet, meets};

/// What is asked of a table: whether a cube may stand in front of the row at a place with a decision.
#[derive(Clone, Copy)]
struct Question<'a> {
    rows: &'a [SearchEntry],
    at: usize,
    cube: Word,
    decision: u32,
    /// What the cube holds already.
    own: Option<Word>,
    /// The place of a row that counts as absent.
    skip: usize,
}

/// Whether the cube may be put in front of `rows[at]` with this decision: every header of it that neither
/// `own` nor `rows[..at]` hold is answered so by `rows[at..]`. The row at `skip` counts as absent. False too
/// where that is too hard to see. The scratch is left as it was.
pub fn free_for(
    rows: &[SearchEntry],
    at: usize,
    cube: Word,
    decision: u32,
    own: Option<Word>,
    skip: Option<usize>,
    scratch: &mut Vec<Word>,
) -> Result<bool, Memory> {
    let from = scratch.len();
    let question = Question {
        rows,
        at,
        cube,
        decision,
        own,
        skip: skip.unwrap_or(usize::MAX),
    };
    let free = question.answer(scratch, from)?;
    scratch.truncate(from);
    Ok(free)
}

impl Question<'_> {
    /// The answer, with what hides parts of the cube at `scratch[from..]`. That is listed only once there is
    /// a row that must be hidden.
    #[inline(never)]
    fn answer(&self, scratch: &mut Vec<Word>, from: usize) -> Result<bool, Memory> {
        let mut listed = false;
        for (k, row) in self.rows.iter().enumerate().skip(self.at) {
            if !meets(&row.word, &self.cube) || k == self.skip {
                continue;
            }
            if row.decision != self.decision {
                if !listed {
                    self.list(k, scratch)?;
                    listed = true;
                }
                if !covered_at(meet(&self.cube, &row.word), scratch, from)? {
                    return Ok(false);
                }
            } else if listed {
                scratch.push(row.word)?;
            }
            if inside(&self.cube, &row.word) {
                return Ok(true);
            }
        }
        if self.decision == 0 {
            return Ok(true);
        }
        if !listed {
            self.list(self.rows.len(), scratch)?;
        }
        covered_at(self.cube, scratch, from)
    }

    /// Pushes what hides parts of the cube above a place: what it holds already, the rows in front of it, and
    /// behind it those of its own decision.
    fn list(&self, upto: usize, scratch: &mut Vec<Word>) -> Result<(), Memory> {
        if let Some(own) = self.own {
            scratch.push(own)?;
        }
        for (k, row) in self.rows.iter().take(upto).enumerate() {
            if (k < self.at || row.decision == self.decision)
                && meets(&row.word, &self.cube)
                && k != self.skip
            {
                scratch.push(row.word)?;
            }
        }
        Ok(())
    }
}

/// The first place in `at..upto` that the cube with this decision can't pass on its way down, or `upto`. The
/// row at `skip` counts as absent. The scratch is left as it was.
pub fn passes(
    rows: &[SearchEntry],
    cube: Word,
    decision: u32,
    at: usize,
    upto: usize,
    skip: Option<usize>,
    scratch: &mut Vec<Word>,
) -> Result<usize, Memory> {
    let from = scratch.len();
    let question = Question {
        rows,
        at,
        cube,
        decision,
        own: None,
        skip: skip.unwrap_or(usize::MAX),
    };
    let place = question.first_blocked(upto, scratch, from)?;
    scratch.truncate(from);
    Ok(place)
}

impl Question<'_> {
    /// The first place from `at` on that the cube can't pass, with what hides parts of it at `scratch[from..]`.
    #[inline(never)]
    fn first_blocked(
        &self,
        upto: usize,
        scratch: &mut Vec<Word>,
        from: usize,
    ) -> Result<usize, Memory> {
        let mut listed = false;
        for (k, row) in self.rows.iter().take(upto).enumerate().skip(self.at) {
            if !meets(&row.word, &self.cube) {
                continue;
            }
            if row.decision != self.decision {
                if !listed {
                    self.list_all(k, scratch)?;
                    listed = true;
                }
                if !covered_at(meet(&self.cube, &row.word), scratch, from)? {
                    return Ok(k);
                }
            }
            if listed {
                scratch.push(row.word)?;
            }
        }
        Ok(upto)
    }

    /// Pushes all rows above a place that meet the cube.
    fn list_all(&self, upto: usize, scratch: &mut Vec<Word>) -> Result<(), Memory> {
        for (k, row) in self.rows.iter().take(upto).enumerate() {
            if meets(&row.word, &self.cube) && k != self.skip {
                scratch.push(row.word)?;
            }
        }
        Ok(())
    }
}
