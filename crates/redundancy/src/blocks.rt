//! Blocks of entries, and blocks by number.
//!
//! A block is a list of entries over the fields of a level: one entry with no field left, a layer of runs whose spans
//! rise and are apart, or two blocks in sequence.
ghost use Rattle.std.specs.Prelude.{◌≡◌};
ghost use Rattle.node_store.specs.Levels.{next};

pub(crate) mod entry_runs;
pub(crate) mod lists;
pub(crate) mod node_blocks;
pub(crate) mod run_blocks;
pub(crate) mod table_blocks;

use field_boxes::Span;
use node_store::NodeId;
use std::alloc::Global;

/// Blocks, and for each its cover.
#[derive(Drop)]
pub struct Blocks<'a> {
    pub blocks: Vec<Block>,
    pub covers: Vec<Cover<'a>>,
}

impl<'a> Blocks<'a> {
    ghost use Rattle.std.specs.Prelude.{◌≡◌, ◌<◌, List, Some, length, slice_get};
    ghost use Rattle.node_store.specs.Diagram.{Node};
    ghost use Rattle.redundancy.specs.Blocks.{IsBlocks, cover_at};

    /// No blocks.
    pub fn new(alloc: Global) -> Blocks<'a>
        ensures { (nodes : List Node) → IsBlocks nodes result }
    {
        Blocks {
            blocks: Vec::new(alloc),
            covers: Vec::new(alloc),
        }
    }

    /// The block under the number.
    pub fn block(&self, number: usize) -> &Block
        requires { number < length self.now.blocks.items }
        ensures found { slice_get self.now.blocks.items number ≡ Some result.now }
    {
        &self.blocks[number]
    }

    /// The cover of the block under the number.
    pub fn cover(&self, number: usize) -> Cover<'a>
        requires { number < length self.now.covers.items }
        ensures { result ≡ cover_at self.now.covers.items number }
    {
        self.covers[number]
    }
}

/// The entries of a block of the next level, each with the span in front.
#[derive(Clone, Copy, Debug, PartialEq, Eq)]
pub struct Run {
    pub span: Span,
    pub block: usize,
}

impl Default for Run {
    fn default() -> Self {
        let span = Span { lo: 0, hi: 0 };
        Run { span, block: 0 }
    }
}

/// A list of entries over the fields of a level.
///
/// Blocks have numbers, and lead to blocks of smaller numbers.
#[derive(Drop)]
pub enum Block {
    /// One entry with no field left, by its decision.
    Last(u32),
    /// Runs whose spans rise and are apart.
    Layer(Vec<Run>),
    /// The entries of a block, and then those of another.
    Two(usize, usize),
}

/// The level of a block, which are the fields that its entries read, and the set of their values that some of its
/// entries match.
#[derive(Clone, Copy, Debug)]
pub struct Cover<'a> {
    pub level: &'a [u8],
    pub set: NodeId,
}

/// The level after the first field.
pub(crate) fn after(level: &[u8]) -> &[u8]
    ensures { result.now ≡ next level.now }
{
    match level {
        [_, rest @ ..] => rest,
        [] => level,
    }
}
