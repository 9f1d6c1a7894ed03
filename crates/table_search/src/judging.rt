//! What is gained where an entry gets a wider cube.

use crate::against::Against;
use crate::effort::GROUP;
use crate::exceptions::{Wish, exceptions};
use crate::groups::{Aim, Group, Inner, Tally, find_inner, group_of, tally_of};
use entry_index::{SearchEntry, View, free_for};
use razor_limits::Memory;
use std::alloc::Global;
use ternary_words::Word;
use word_cover::inside;

/// A wider cube for an entry, the exceptions that then stand in front of it, and how many rows are saved.
#[derive(Drop)]
pub(crate) struct Gain {
    pub saved: usize,
    pub cube: Word,
    pub exceptions: Vec<SearchEntry>,
}

impl Gain {
    /// Whether it saves more, or as much by fewer exceptions.
    pub fn is_better(&self, other: &Gain) -> bool {
        self.saved > other.saved
            || self.saved == other.saved && self.exceptions.len() < other.exceptions.len()
    }
}

/// Judges wider cubes of one kind for an entry, each inside of the cube that the view is of.
#[derive(Drop)]
pub(crate) struct Judging {
    alloc: Global,
    against: Against,
    /// The rows inside of the view's cube.
    inner: Vec<Inner>,
    /// Cubes that couldn't stand there as they are.
    refused: Vec<Word>,
    scratch: Vec<Word>,
}

/// What a cube must gain: whether saving nothing counts too, and how much another is known to save.
#[derive(Clone, Copy)]
pub(crate) struct Hurdle {
    pub flat: bool,
    pub saved: usize,
}

impl Hurdle {
    /// How much a cube must save at least.
    fn least(self) -> usize {
        self.saved.max(usize::from(!self.flat))
    }
}

impl Judging {
    /// Judges nothing yet.
    pub fn new(alloc: Global) -> Judging {
        Judging {
            alloc,
            against: Against::new(alloc),
            inner: Vec::new(alloc),
            refused: Vec::new(alloc),
            scratch: Vec::new(alloc),
        }
    }

    /// Turns to a view of this cube.
    pub fn begin(&mut self, view: &View, around: Word) -> Result<(), Memory> {
        self.refused.clear();
        find_inner(&mut self.inner, view, around)?;
        self.against.begin(view.rows.len())
    }

    /// What is gained where the entry gets the cube; none where that is too little.
    pub fn judge(
        &mut self,
        view: &View,
        entry: &SearchEntry,
        cube: Word,
        hurdle: Hurdle,
    ) -> Result<Option<Gain>, Memory> {
        let tally = tally_of(&self.inner, view, entry, cube);
        let most = tally.all.saturating_sub(hurdle.least());
        let needed = self.against.count(view, entry, cube, most)?;
        let plain = self.is_plain(view, entry, cube, needed)?;
        if needed > most || is_hopeless(tally, plain, hurdle) {
            return Ok(None);
        }
        let spent = needed.max(usize::from(!plain));
        let aim = Aim {
            view,
            entry: *entry,
            cube,
            plain,
            most: tally.all,
            least: hurdle.least().saturating_add(spent),
        };
        match group_of(self.alloc, &mut self.inner, &aim, &mut self.scratch)? {
            Some(group) => self.gain(&aim, &group, hurdle),
            None => Ok(None),
        }
    }

    /// Whether the cube may stand at the entry's place as it is.
    fn is_plain(
        &mut self,
        view: &View,
        entry: &SearchEntry,
        cube: Word,
        needed: usize,
    ) -> Result<bool, Memory> {
        if self.refused.iter().any(|refused| inside(refused, &cube)) {
            return Ok(false);
        }
        let own = Some(entry.word);
        let plain = needed == 0
            && free_for(
                &view.rows,
                view.at,
                cube,
                entry.decision,
                own,
                None,
                &mut self.scratch,
            )?;
        if !plain {
            self.refused.push(cube)?;
        }
        Ok(plain)
    }

    /// What the group gains with its exceptions.
    fn gain(&mut self, aim: &Aim, group: &Group, hurdle: Hurdle) -> Result<Option<Gain>, Memory> {
        if group.places.is_empty() {
            return Ok(None);
        }
        let most = group.saved.saturating_sub(usize::from(!hurdle.flat));
        let Some(exceptions) = self.exceptions(aim, group, most)? else {
            return Ok(None);
        };
        if exceptions.len() > most {
            return Ok(None);
        }
        Ok(Some(Gain {
            saved: group.saved.saturating_sub(exceptions.len()),
            cube: aim.cube,
            exceptions,
        }))
    }

    /// The exceptions that the group needs; none where they are more than `most`.
    fn exceptions(
        &mut self,
        aim: &Aim,
        group: &Group,
        most: usize,
    ) -> Result<Option<Vec<SearchEntry>>, Memory> {
        if aim.plain {
            return Ok(Some(Vec::new(self.alloc)));
        }
        if most == 0 {
            return Ok(None);
        }
        let wish = Wish {
            view: aim.view,
            cube: aim.cube,
            decision: aim.entry.decision,
            own: &group.cubes,
            gone: &group.places,
            most,
        };
        exceptions(self.alloc, &wish, &mut self.scratch)
    }
}

/// Whether a cube is not looked at further.
fn is_hopeless(tally: Tally, plain: bool, hurdle: Hurdle) -> bool {
    let most = tally.all.saturating_sub(usize::from(!plain));
    tally.all == 0 || most < hurdle.saved || !plain && tally.same > GROUP
}
