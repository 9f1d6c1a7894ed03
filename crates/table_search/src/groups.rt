//! The rows that a wider cube stands for.

use entry_index::{SearchEntry, View, free_for, passes};
use razor_limits::Memory;
use std::alloc::Global;
use ternary_words::Word;
use word_cover::inside;

/// A row that isn't fixed and lies inside the cubes that are looked at.
#[derive(Clone, Copy)]
pub(crate) struct Inner {
    place: usize,
    /// Whether the row may stand at the view's place, once that was asked.
    joins: Option<bool>,
}

/// A wider cube at the place of an entry.
#[derive(Clone, Copy)]
pub(crate) struct Aim<'a> {
    pub view: &'a View,
    pub entry: SearchEntry,
    pub cube: Word,
    /// Whether the cube may stand there as it is.
    pub plain: bool,
    /// How many rows it may save at most, and how many it must save.
    pub most: usize,
    pub least: usize,
}

/// How many rows inside of a cube have the entry's decision, and how many of them and of others behind it may
/// become redundant.
#[derive(Clone, Copy)]
pub(crate) struct Tally {
    pub same: usize,
    pub all: usize,
}

/// The rows that the cube stands for, by their rising places and with the entry's cube in front of theirs; and how
/// many rows it saves.
#[derive(Drop)]
pub(crate) struct Group {
    pub saved: usize,
    pub places: Vec<usize>,
    pub cubes: Vec<Word>,
}

/// Fills the list with the view's rows inside of the cube that aren't fixed.
pub(crate) fn find_inner(inner: &mut Vec<Inner>, view: &View, around: Word) -> Result<(), Memory> {
    inner.clear();
    for (place, row) in view.rows.iter().enumerate() {
        if !row.is_fixed && inside(&row.word, &around) {
            inner.push(Inner { place, joins: None })?;
        }
    }
    Ok(())
}

impl Inner {
    /// The row, where it lies inside of the cube.
    fn row<'a>(&self, view: &'a View, cube: Word) -> Option<&'a SearchEntry> {
        view.rows
            .get(self.place)
            .filter(|row| inside(&row.word, &cube))
    }

    /// Whether the row may stand at the view's place.
    fn joins(
        &mut self,
        view: &View,
        row: &SearchEntry,
        scratch: &mut Vec<Word>,
    ) -> Result<bool, Memory> {
        if let Some(joins) = self.joins {
            return Ok(joins);
        }
        let (rows, at) = (&view.rows, view.at);
        let joins = if self.place >= at {
            free_for(rows, at, row.word, row.decision, None, None, scratch)?
        } else {
            let below = self.place.saturating_add(1);
            passes(
                rows,
                row.word,
                row.decision,
                below,
                at,
                Some(self.place),
                scratch,
            )? == at
        };
        self.joins = Some(joins);
        Ok(joins)
    }
}

/// What the cube may gain at most.
pub(crate) fn tally_of(inner: &[Inner], view: &View, entry: &SearchEntry, cube: Word) -> Tally {
    let mut tally = Tally { same: 0, all: 0 };
    for one in inner {
        let Some(row) = one.row(view, cube) else {
            continue;
        };
        let same = row.decision == entry.decision;
        tally.same = tally.same.saturating_add(usize::from(same));
        tally.all = tally
            .all
            .saturating_add(usize::from(same || one.place >= view.at));
    }
    tally
}

/// The group of the cube; none where it is seen to save too little.
pub(crate) fn group_of(
    alloc: Global,
    inner: &mut [Inner],
    aim: &Aim,
    scratch: &mut Vec<Word>,
) -> Result<Option<Group>, Memory> {
    let mut hope = aim.most;
    if hope < aim.least {
        return Ok(None);
    }
    let mut group = Group::new(alloc, aim.entry.word)?;
    for one in inner.iter_mut() {
        if !group.take(one, aim, scratch)? {
            hope = hope.saturating_sub(1);
            if hope < aim.least {
                return Ok(None);
            }
        }
    }
    Ok(Some(group))
}

impl Group {
    fn new(alloc: Global, own: Word) -> Result<Group, Memory> {
        let mut cubes = Vec::new(alloc);
        cubes.push(own)?;
        Ok(Group {
            saved: 0,
            places: Vec::new(alloc),
            cubes,
        })
    }

    /// Takes the row in where it lies in the cube and may join, or becomes redundant behind it. False where it
    /// was hoped for and stays.
    fn take(
        &mut self,
        one: &mut Inner,
        aim: &Aim,
        scratch: &mut Vec<Word>,
    ) -> Result<bool, Memory> {
        let view = aim.view;
        let Some(row) = one.row(view, aim.cube) else {
            return Ok(true);
        };
        let behind = one.place >= view.at;
        let same = row.decision == aim.entry.decision;
        let joins = same && (aim.plain && behind || one.joins(view, row, scratch)?);
        if joins {
            self.places.push(one.place)?;
            self.cubes.push(row.word)?;
        }
        if joins || behind {
            self.saved = self.saved.saturating_add(1);
        }
        Ok(joins || behind || !same)
    }
}
