//! Words by the front that they ask for of one address.

use crate::candidates::{Candidate, Place};
use crate::leads::Lead;
use crate::run::Run;
use razor_limits::Memory;
use std::alloc::Global;
use ternary_words::Word;
use word_cover::{inside, meets};

/// How many leads may lie round one another.
const DEPTH: u32 = 33;

/// What the first word that holds a cube is asked for.
pub(crate) trait Test {
    /// Whether the word at the place will do.
    fn passes(&self, place: u32) -> bool;
}

/// The words with one lead.
#[derive(Clone, Copy)]
pub(crate) struct Node {
    lead: Lead,
    /// The node with the least lead round this one.
    up: Option<usize>,
    pub run: Run,
    /// The level that has these words by the other address, where they are many.
    pub inner: Option<usize>,
}

/// A node and those round it, from the least lead on.
#[derive(Clone, Copy)]
pub(crate) struct Path<'a> {
    nodes: &'a [Node],
    next: Option<usize>,
    left: u32,
}

impl<'a> Iterator for Path<'a> {
    type Item = Node;

    ghost use Rattle.std.specs.Iterator.{at_most};

    ghost remaining = { λ path. at_most path.left };

    #[inline]
    fn next(&mut self) -> Option<Node> {
        if self.left == 0 {
            return None;
        }
        self.left -= 1;
        let node = *self.nodes.get(self.next?)?;
        self.next = node.up;
        Some(node)
    }
}

/// Words with their places, by their leads, and by their places where these are equal.
#[derive(Drop)]
pub(crate) struct Level {
    of_source: bool,
    pub nodes: Vec<Node>,
    words: Vec<Word>,
    places: Vec<u32>,
}

impl Level {
    /// The words at these places, which rise.
    pub fn new(
        alloc: Global,
        words: &[Word],
        places: &[u32],
        of_source: bool,
    ) -> Result<Level, Memory> {
        let mut sorted = Vec::with_capacity(alloc, places.len())?;
        for place in places {
            if let Some(word) = words.get(*place as usize) {
                sorted.push((Lead::of(word, of_source), *place))?;
            }
        }
        sorted.sort_unstable();
        let mut level = Level {
            of_source,
            nodes: Vec::new(alloc),
            words: Vec::with_capacity(alloc, sorted.len())?,
            places: Vec::with_capacity(alloc, sorted.len())?,
        };
        for (lead, place) in &sorted {
            if let Some(word) = words.get(*place as usize) {
                level.push(*lead, *place, *word)?;
            }
        }
        Ok(level)
    }

    /// Puts a word behind the others.
    fn push(&mut self, lead: Lead, place: u32, word: Word) -> Result<(), Memory> {
        let from = self.words.len();
        self.words.push(word)?;
        self.places.push(place)?;
        let to = self.words.len();
        if let Some(last) = self.nodes.last_mut()
            && last.lead == lead
        {
            last.run.to = to;
            return Ok(());
        }
        let up = self.least_round(self.nodes.len().checked_sub(1), lead);
        self.nodes.push(Node {
            lead,
            up,
            run: Run { from, to },
            inner: None,
        })?;
        Ok(())
    }

    /// From this node up the first one whose lead holds this one.
    #[inline]
    fn least_round(&self, from: Option<usize>, lead: Lead) -> Option<usize> {
        let mut next = from;
        for _ in 0..DEPTH {
            let node = self.nodes.get(next?)?;
            if node.lead.holds(lead) {
                return next;
            }
            next = node.up;
        }
        None
    }

    /// The nodes whose leads hold that of the cube.
    #[inline]
    pub fn holding(&self, cube: &Word) -> Path<'_> {
        let lead = Lead::of(cube, self.of_source);
        let behind = self.nodes.partition_point(|node| node.lead <= lead);
        Path {
            nodes: self.nodes.as_slice(),
            next: self.least_round(behind.checked_sub(1), lead),
            left: DEPTH,
        }
    }

    /// The nodes whose leads hold that of the cube, and are others.
    #[inline]
    pub fn round(&self, cube: &Word) -> Path<'_> {
        let lead = Lead::of(cube, self.of_source);
        let behind = self.nodes.partition_point(|node| node.lead < lead);
        Path {
            nodes: self.nodes.as_slice(),
            next: self.least_round(behind.checked_sub(1), lead),
            left: DEPTH,
        }
    }

    /// The words whose leads lie in that of the cube.
    #[inline]
    pub fn within(&self, cube: &Word) -> Run {
        let lead = Lead::of(cube, self.of_source);
        let first = self.nodes.partition_point(|node| node.lead < lead);
        let behind = self
            .nodes
            .partition_point(|node| !lead.ends_before(node.lead));
        Run {
            from: self.begin(first),
            to: self.begin(behind),
        }
    }

    /// Where the words of a node begin.
    #[inline]
    fn begin(&self, at: usize) -> usize {
        match self.nodes.get(at) {
            Some(node) => node.run.from,
            None => self.words.len(),
        }
    }

    /// The words of a run.
    #[inline]
    fn words_of(&self, run: Run) -> &[Word] {
        run.of(self.words.as_slice())
    }

    /// Their places.
    #[inline]
    pub fn places_of(&self, run: Run) -> &[u32] {
        run.of(self.places.as_slice())
    }

    /// Pushes the words of a run that meet the cube and have places below the limit; the answer is how many were looked at.
    #[inline]
    pub fn push_run(
        &self,
        run: Run,
        cube: &Word,
        below: Place,
        found: &mut Vec<Candidate>,
    ) -> Result<usize, Memory> {
        for (word, place) in self.words_of(run).iter().zip(self.places_of(run)) {
            if *place < below.number() && meets(word, cube) {
                found.push(Candidate::new(*word, below.with(*place)))?;
            }
        }
        Ok(run.len())
    }

    /// The same of all words.
    pub fn push_all(
        &self,
        cube: &Word,
        below: Place,
        found: &mut Vec<Candidate>,
    ) -> Result<usize, Memory> {
        let mut looked = self.push_run(self.within(cube), cube, below, found)?;
        for node in self.round(cube) {
            looked = looked.saturating_add(self.push_run(node.run, cube, below, found)?);
        }
        Ok(looked)
    }

    /// The first place below the limit of a node's words that holds the cube and passes; else the limit.
    #[inline]
    pub fn first_of<T: Test>(&self, node: &Node, cube: &Word, below: u32, test: &T) -> u32 {
        for (word, place) in self.words_of(node.run).iter().zip(self.places_of(node.run)) {
            if *place >= below {
                return below;
            }
            if inside(cube, word) && test.passes(*place) {
                return *place;
            }
        }
        below
    }

    /// The same of all words.
    pub fn first<T: Test>(&self, cube: &Word, below: u32, test: &T) -> u32 {
        let mut first = below;
        for node in self.holding(cube) {
            first = self.first_of(&node, cube, first, test);
        }
        first
    }
}
