//! Covers, each the steps that say how a cube is parted.

use crate::run::Run;
use agreement_check::Step;
use razor_limits::Memory;
use std::alloc::Global;

/// Covers under the numbers from 0 on, each a list of steps.
#[derive(Drop)]
pub struct Covers {
    steps: Vec<Step>,
    runs: Vec<Run>,
}

impl Covers {
    /// No cover.
    pub(crate) fn new(alloc: Global) -> Covers {
        Covers {
            steps: Vec::new(alloc),
            runs: Vec::new(alloc),
        }
    }

    /// How many covers there are.
    pub fn len(&self) -> usize {
        self.runs.len()
    }

    /// Whether there is none.
    pub fn is_empty(&self) -> bool {
        self.runs.is_empty()
    }

    /// The steps of the cover with this number; none where none was found.
    pub fn steps(&self, number: usize) -> &[Step] {
        match self.runs.get(number) {
            Some(run) => run.of(self.steps.as_slice()),
            None => &[],
        }
    }

    /// Puts a cover behind the others.
    pub(crate) fn push(&mut self, steps: &[Step]) -> Result<(), Memory> {
        let run = self.run_of(steps)?;
        self.runs.push(run)?;
        Ok(())
    }

    /// Puts another cover in the place of one.
    pub(crate) fn put(&mut self, number: usize, steps: &[Step]) -> Result<(), Memory> {
        let run = self.run_of(steps)?;
        if let Some(old) = self.runs.get_mut(number) {
            *old = run;
        }
        Ok(())
    }

    /// Puts the steps behind the others.
    fn run_of(&mut self, steps: &[Step]) -> Result<Run, Memory> {
        let from = self.steps.len();
        self.steps.extend_from_slice(steps)?;
        Ok(Run {
            from,
            to: self.steps.len(),
        })
    }
}
