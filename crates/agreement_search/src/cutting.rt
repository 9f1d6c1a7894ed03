//! Covers of a cube, found by cutting it until each part lies in one of the candidates.
//!
//! A part is cut at a bit that the candidate asks for which lacks the fewest bits of it: so half of it soon lies there.
//! The steps of the cover come out in their order. Where no candidate is left for a part, it is open, and the cutting may go
//! on behind it.

use crate::candidates::Candidate;
use crate::gathering::gather;
use crate::run::Run;
use crate::sides::Sides;
use crate::tasks::Task;
use agreement_check::Step;
use razor_limits::Memory;
use std::alloc::Global;
use ternary_words::Word;
use word_cover::{one_half, zero_half};

/// A part that is still to be covered, and which candidates are left for it.
#[derive(Clone, Copy)]
struct Part {
    cube: Word,
    /// Which of those that are near are left.
    near: Run,
    /// How many candidates there were.
    candidates: usize,
    /// Whether these were all.
    are_all: bool,
}

/// What is seen of a part.
#[derive(Clone, Copy)]
enum Seen {
    /// This step covers it.
    Covered(Step),
    /// It is to be cut at this bit.
    Cut(u32),
    /// The candidates that were left out are to be tried.
    Bare,
    /// Nothing covers it.
    Open,
}

/// What the cutting came to.
#[derive(Clone, Copy)]
pub(crate) enum Next {
    /// A part is open.
    Open(Word),
    /// All parts are covered but those that were open.
    Done,
    /// The steps ran out.
    Ended,
}

/// A cover that is being found.
#[derive(Drop)]
pub(crate) struct Cutting {
    candidates: Vec<Candidate>,
    near: Vec<usize>,
    parts: Vec<Part>,
    /// The steps of the cover so far.
    steps: Vec<Step>,
    /// Headers from this key on need no cover.
    pub bound: u128,
    /// How many words may still be looked at.
    pub left: u64,
}

impl Cutting {
    /// No cover yet, with so many words that may be looked at.
    pub fn new(alloc: Global, left: u64) -> Cutting {
        Cutting {
            candidates: Vec::new(alloc),
            near: Vec::new(alloc),
            parts: Vec::new(alloc),
            steps: Vec::new(alloc),
            bound: 1 << 104,
            left,
        }
    }

    /// The steps of the cover so far.
    pub fn steps(&self) -> &[Step] {
        self.steps.as_slice()
    }

    /// The candidates.
    pub fn candidates(&self) -> &[Candidate] {
        self.candidates.as_slice()
    }

    /// Whether those candidates that share most with the cube cover it.
    pub fn covers(&mut self, sides: &Sides, task: &Task) -> Result<bool, Memory> {
        self.begin(sides, task)?;
        self.is_done(sides, task)
    }

    /// Whether this candidate alone covers the cube.
    pub fn covers_by(
        &mut self,
        sides: &Sides,
        task: &Task,
        only: Candidate,
    ) -> Result<bool, Memory> {
        self.candidates.clear();
        self.candidates.push(only)?;
        self.begin_with(task, 1, true)?;
        self.is_done(sides, task)
    }

    /// Whether the first so many of the candidates cover the cube.
    pub fn covers_again(
        &mut self,
        sides: &Sides,
        task: &Task,
        count: usize,
    ) -> Result<bool, Memory> {
        self.begin_with(task, count, true)?;
        self.is_done(sides, task)
    }

    /// Whether no part is open.
    fn is_done(&mut self, sides: &Sides, task: &Task) -> Result<bool, Memory> {
        match self.next_open(sides, task)? {
            Next::Done => Ok(true),
            _ => Ok(false),
        }
    }

    /// Begins with the candidates that share most with the cube.
    pub fn begin(&mut self, sides: &Sides, task: &Task) -> Result<(), Memory> {
        self.candidates.clear();
        let are_all = self.gather(sides, task, &task.cube)?;
        let count = self.candidates.len();
        self.begin_with(task, count, are_all)
    }

    /// Begins with the first so many of the candidates.
    fn begin_with(&mut self, task: &Task, count: usize, are_all: bool) -> Result<(), Memory> {
        self.steps.clear();
        self.near.clear();
        self.parts.clear();
        for place in 0..count {
            self.near.push(place)?;
        }
        self.parts.push(Part {
            cube: task.cube,
            near: Run { from: 0, to: count },
            candidates: self.candidates.len(),
            are_all,
        })?;
        Ok(())
    }

    /// Puts candidates for the cube behind the others; whether none was left out.
    fn gather(&mut self, sides: &Sides, task: &Task, cube: &Word) -> Result<bool, Memory> {
        let gathered = gather(sides, task, cube, &mut self.candidates)?;
        self.pay(gathered.looked);
        Ok(gathered.are_all)
    }

    /// Counts words that were looked at.
    fn pay(&mut self, looked: usize) {
        self.left = self.left.saturating_sub(looked as u64);
    }

    /// Goes on to the next open part, or to the end.
    pub fn next_open(&mut self, sides: &Sides, task: &Task) -> Result<Next, Memory> {
        for _ in 0..u64::MAX {
            let Some(part) = self.parts.pop() else {
                return Ok(Next::Done);
            };
            if self.left == 0 {
                return Ok(Next::Ended);
            }
            if self.is_open(sides, task, &part)? {
                return Ok(Next::Open(part.cube));
            }
        }
        Ok(Next::Ended)
    }

    /// Covers or cuts a part; whether it is open.
    fn is_open(&mut self, sides: &Sides, task: &Task, part: &Part) -> Result<bool, Memory> {
        self.near.truncate(part.near.to);
        self.candidates.truncate(part.candidates);
        self.pay(part.near.len().saturating_add(1));
        match self.look(sides, task, part)? {
            Seen::Covered(step) => self.steps.push(step)?,
            Seen::Cut(bit) => self.cut(part, bit)?,
            Seen::Bare => self.try_others(sides, task, part)?,
            Seen::Open => return Ok(true),
        }
        Ok(false)
    }

    /// Looks at a part, and puts the candidates that meet it behind the others.
    fn look(&mut self, sides: &Sides, task: &Task, part: &Part) -> Result<Seen, Memory> {
        let cube = &part.cube;
        if self.bound <= cube.value {
            return Ok(Seen::Covered(Step::Late));
        }
        if let Some(of) = &task.of
            && !of.meets(sides, cube)
        {
            return Ok(Seen::Covered(Step::Missed));
        }
        let mut fewest = u32::MAX;
        let mut asked = 0;
        for k in part.near.from..part.near.to {
            let Some(&place) = self.near.get(k) else {
                break;
            };
            let Some(candidate) = self.candidates.get(place) else {
                break;
            };
            if !candidate.meets(sides, cube) {
                continue;
            }
            let own = candidate.asked(sides, cube);
            if own == 0 {
                return Ok(Seen::Covered(candidate.place.step()));
            }
            if own.count_ones() < fewest {
                fewest = own.count_ones();
                asked = own;
            }
            self.near.push(place)?;
        }
        if asked != 0 {
            return Ok(Seen::Cut(highest(asked)));
        }
        if task.goes_on && !part.are_all {
            return Ok(Seen::Bare);
        }
        Ok(bare(sides, task, cube))
    }

    /// Puts the halves of the part before the others, the one with 0 first.
    fn cut(&mut self, part: &Part, bit: u32) -> Result<(), Memory> {
        self.steps.push(Step::Halved(bit))?;
        let bit = bit.min(103);
        for cube in [one_half(&part.cube, bit), zero_half(&part.cube, bit)] {
            self.parts.push(Part {
                cube,
                near: Run {
                    from: part.near.to,
                    to: self.near.len(),
                },
                candidates: self.candidates.len(),
                are_all: part.are_all,
            })?;
        }
        Ok(())
    }

    /// Puts the part before the others once more, with candidates of its own.
    fn try_others(&mut self, sides: &Sides, task: &Task, part: &Part) -> Result<(), Memory> {
        let first = self.candidates.len();
        let are_all = self.gather(sides, task, &part.cube)?;
        let from = self.near.len();
        for place in first..self.candidates.len() {
            self.near.push(place)?;
        }
        self.parts.push(Part {
            cube: part.cube,
            near: Run {
                from,
                to: self.near.len(),
            },
            candidates: self.candidates.len(),
            are_all,
        })?;
        Ok(())
    }
}

/// What is seen of a part for which no candidate is left: it is open, or to be cut where the rule that is covered has
/// not all of it.
fn bare(sides: &Sides, task: &Task, cube: &Word) -> Seen {
    let asked = match &task.of {
        Some(of) => of.asked(sides, cube),
        None => 0,
    };
    if asked == 0 {
        Seen::Open
    } else {
        Seen::Cut(highest(asked))
    }
}

/// The highest 1 of a number that has one.
#[inline]
fn highest(number: u128) -> u32 {
    127u32.saturating_sub(number.leading_zeros())
}
