//! Which words meet a cube, and the first one that holds it. Only time depends on how they are found.
//!
//! The words are sorted by the bits that they ask for at the front of an address. Those that meet a cube lie in its
//! front, which is one run, or round it, which is a path upwards; where many words have one front, these are sorted by the
//! other address in turn.

use crate::candidates::{Candidate, Place};
use crate::level::{Level, Node, Test};
use razor_limits::Memory;
use std::alloc::Global;
use ternary_words::Word;

/// Words with one lead that are not yet many.
const FEW: usize = 32;

/// Words by their sources, by their destinations, and those that have one address in common by the other one.
#[derive(Drop)]
pub(crate) struct Index {
    levels: Vec<Level>,
}

impl Index {
    /// The index of these words.
    pub fn new(alloc: Global, words: &[Word]) -> Result<Index, Memory> {
        let mut places = Vec::with_capacity(alloc, words.len())?;
        for place in 0..words.len() {
            places.push((place % (1 << 32)) as u32)?;
        }
        let mut levels = Vec::new(alloc);
        levels.push(Level::new(alloc, words, &places, true)?)?;
        levels.push(Level::new(alloc, words, &places, false)?)?;
        let mut index = Index { levels };
        index.part(alloc, words, 0)?;
        index.part(alloc, words, 1)?;
        Ok(index)
    }

    /// Gives each node of a level that has many words a level of its own.
    fn part(&mut self, alloc: Global, words: &[Word], outer: usize) -> Result<(), Memory> {
        let nodes = self.levels.get(outer).map_or(0, |level| level.nodes.len());
        for at in 0..nodes {
            if let Some(level) = self.inner_level(alloc, words, outer, at)? {
                let inner = self.levels.len();
                self.levels.push(level)?;
                self.tell(outer, at, inner);
            }
        }
        Ok(())
    }

    /// The words of a node by the other address; none where they are few.
    fn inner_level(
        &self,
        alloc: Global,
        words: &[Word],
        outer: usize,
        at: usize,
    ) -> Result<Option<Level>, Memory> {
        let Some(level) = self.levels.get(outer) else {
            return Ok(None);
        };
        let Some(node) = level.nodes.get(at) else {
            return Ok(None);
        };
        if node.run.len() <= FEW {
            return Ok(None);
        }
        let places = level.places_of(node.run);
        Ok(Some(Level::new(alloc, words, places, outer != 0)?))
    }

    /// Tells a node its level.
    fn tell(&mut self, outer: usize, at: usize, inner: usize) {
        if let Some(level) = self.levels.get_mut(outer)
            && let Some(node) = level.nodes.get_mut(at)
        {
            node.inner = Some(inner);
        }
    }

    /// The level of a node that has many words.
    #[inline]
    fn inner(&self, node: &Node) -> Option<&Level> {
        self.levels.get(node.inner?)
    }

    /// The level by the address in whose front fewer words lie.
    #[inline]
    fn narrower(&self, cube: &Word) -> Option<&Level> {
        let sources = self.levels.first()?;
        let destinations = self.levels.get(1)?;
        if sources.within(cube).len() <= destinations.within(cube).len() {
            Some(sources)
        } else {
            Some(destinations)
        }
    }

    /// Pushes the words that meet the cube and have places below the limit, in no order; the answer is how many were
    /// looked at.
    pub fn push_meeting(
        &self,
        cube: &Word,
        below: Place,
        found: &mut Vec<Candidate>,
    ) -> Result<usize, Memory> {
        let Some(level) = self.narrower(cube) else {
            return Ok(0);
        };
        let mut looked = level.push_run(level.within(cube), cube, below, found)?;
        for node in level.round(cube) {
            let more = match self.inner(&node) {
                Some(inner) => inner.push_all(cube, below, found)?,
                None => level.push_run(node.run, cube, below, found)?,
            };
            looked = looked.saturating_add(more);
        }
        Ok(looked)
    }

    /// The first place below the limit whose word holds the cube and passes the test; else the limit.
    pub fn first<T: Test>(&self, cube: &Word, below: u32, test: &T) -> u32 {
        let mut first = below;
        if let Some(level) = self.levels.first() {
            for node in level.holding(cube) {
                first = match self.inner(&node) {
                    Some(inner) => inner.first(cube, first, test),
                    None => level.first_of(&node, cube, first, test),
                };
            }
        }
        first
    }
}
