//! Tables of entries whose words are prefixes in each field, without their redundant entries.
ghost use Rattle.std.specs.Prelude.{◌≡◌, ◌<◌, [], length, IfOk, OnOk};
ghost use Rattle.field_boxes.specs.Alike.{AreAlike, IsTight};
ghost use Rattle.ternary_words.specs.Entries.{ArePrefixes, IsPart, answer};
ghost use Rattle.redundancy_laws.specs.Pass.{Keeps};
ghost use Rattle.redundancy_laws.specs.Flags.{AreRightFlags, with_flags};
ghost use Rattle.field_boxes.specs.Orders.{IsOrder};
ghost use Rattle.node_store.specs.Store.{Grows};
ghost use Rattle.redundancy.specs.Blocks.{IsBlocks, cover_at, rows_of};
ghost use Rattle.redundancy.specs.Kept.{AreWholeFlags};
ghost use Rattle.redundancy.specs.Remembered.{IsMemo};

use crate::blocks::Blocks;
use crate::blocks::lists::Lists;
use crate::sets::Sets;
use crate::sifting::Memo;
use field_boxes::Order;
use razor_limits::Memory;
use redundancy_laws::Context;
use redundancy_laws::laws::{one_pass, whole_table};
use std::alloc::Global;
use ternary_words::Entry;

/// The table without its redundant entries: those that a pass from the last entry to the first keeps. The entries' words
/// are prefixes in each field.
///
/// An entry stays where some header meets it first and is answered otherwise by what stays of the entries
/// after it. To decide nothing and to match no entry is the same answer.
pub fn remove(alloc: Global, entries: Vec<Entry>) -> Result<Vec<Entry>, Memory>
    requires prefixes { ArePrefixes entries.items }
    ensures pass { IfOk result (λ kept. Keeps [] entries.items kept.items) }
    ensures part { IfOk result (λ kept. IsPart kept.items entries.items) }
    ensures alike { IfOk result (λ kept. AreAlike (answer kept.items) (answer entries.items)) }
    ensures tight { IfOk result (λ kept. IsTight answer kept.items) }
{
    remove_in(alloc, &Order::stated(), entries)
}

/// The same by blocks that read the fields in the order, which suits entries that were composed in it.
pub fn remove_in(alloc: Global, order: &Order, entries: Vec<Entry>) -> Result<Vec<Entry>, Memory>
    requires prefixes { ArePrefixes entries.items }
    ensures pass { IfOk result (λ kept. Keeps [] entries.items kept.items) }
    ensures part { IfOk result (λ kept. IsPart kept.items entries.items) }
    ensures alike { IfOk result (λ kept. AreAlike (answer kept.items) (answer entries.items)) }
    ensures tight { IfOk result (λ kept. IsTight answer kept.items) }
{
    if entries.is_empty() {
        return Ok(entries);
    }
    whole_table();
    one_pass();
    let flags = flags(alloc, order.fields(), entries.as_slice())?;
    let kept = flagged(alloc, entries.as_slice(), flags.as_slice())?;
    Ok(kept)
}

/// Which entries stay.
fn flags(alloc: Global, order: &[u8], entries: &[Entry]) -> Result<Vec<bool>, Memory>
    requires order { IsOrder order.now }
    requires some { 0 < length entries.now }
    ensures { IfOk result (λ flags. AreRightFlags order.now entries.now flags.items) }
{
    whole_table();
    let mut sets = Sets::new(alloc);
    let mut blocks = Blocks::new(alloc);
    let mut lists = Lists::new(alloc);
    let block = blocks.of(alloc, &mut sets, &mut lists, entries, order)?;
    let mut memo = Memo::new(alloc);
    flags_by(alloc, &mut sets, &mut memo, &blocks, block, order)
}

/// The entries that are flagged.
fn flagged(alloc: Global, entries: &[Entry], flags: &[bool]) -> Result<Vec<Entry>, Memory>
    requires { length flags.now ≡ length entries.now }
    ensures { IfOk result (λ kept. kept.items ≡ with_flags entries.now flags.now) }
{
    let mut kept = Vec::new(alloc);
    for (place, entry) in entries.iter().enumerate() {
        if flags[place] {
            kept.push(*entry)?;
        }
    }
    Ok(kept)
}

/// A flag for each entry of the block of a whole table, which reads the fields in the order: whether it stays. What was
/// worked out of the blocks before isn't worked out again.
pub(crate) fn flags_by(
    alloc: Global,
    sets: &mut Sets,
    memo: &mut Memo,
    blocks: &Blocks<'_>,
    block: usize,
    order: &[u8],
) -> Result<Vec<bool>, Memory>
    requires order { IsOrder order.now }
    requires blocks { IsBlocks sets.old blocks.now }
    requires memo { IsMemo sets.old blocks.now memo.old }
    requires block { block < length blocks.now.blocks.items }
    requires level { (cover_at blocks.now.covers.items block).level.now ≡ order.now }
    ensures flags { IfOk result (λ flags. AreWholeFlags order.now (rows_of blocks.now.blocks.items block) flags.items) }
    ensures memo { OnOk result (IsMemo sets.new blocks.now memo.new) }
    ensures grows { OnOk result (Grows sets.old sets.new) }
{
    let none = sets.none(order)?;
    let context = Context {
        after: none,
        met: none,
    };
    let sifted = blocks.sift(alloc, sets, memo, block, &[context])?;
    Ok(sifted.kept)
}
