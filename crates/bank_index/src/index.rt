//! Entries with a tree over their slots.
ghost use Rattle.std.specs.Prelude.{◌≡◌, ◌<◌, IfOk, if◌then◌else◌};
ghost use Rattle.std.specs.List.{range_with_len};
ghost use Rattle.bank_index.specs.Bits.{bit_at};
ghost use Rattle.bank_index.specs.Hits.{all_slots};
ghost use Rattle.bank_index.specs.Tree.{IsTreeOf, IsTreeOf-prop};
ghost use Rattle.bank_index.specs.declared.index.TheConstants.{STEPS};

use crate::bit::has_bit;
use crate::growing::grow;
use crate::node::Node;
use field_boxes::Header;
use razor_limits::Memory;
use std::alloc::Global;
use ternary_words::{Entry, key};

/// The most nodes on a way down.
const STEPS: u32 = 48;

/// How many slots the leaves may have for each entry.
const COPIES: usize = 2;

/// The entries of a table, and a tree over their places, which are their slots.
#[derive(Drop)]
pub(crate) struct Index {
    entries: Vec<Entry>,
    nodes: Vec<Node>,
    root: u32,
    ghost tree: { IsTreeOf STEPS nodes.items entries.items (all_slots entries.items) root } by { IsTreeOf-prop STEPS nodes.items entries.items (all_slots entries.items) root },
}

/// The numbers below the count, rising.
fn below(alloc: Global, count: u32) -> Result<Vec<u32>, Memory>
    ensures { IfOk result (λ slots. slots.items ≡ range_with_len 0 count) }
{
    let mut slots = Vec::with_capacity(alloc, count as usize)?;
    for slot in 0..count {
        slots.push(slot)?;
    }
    Ok(slots)
}

/// Where a node leads the key.
#[inline]
fn next(key: u128, bit: u32, zero: u32, one: u32) -> u32
    requires { bit < 104 }
    ensures { result ≡ (if bit_at key bit then one else zero) }
{
    if has_bit(key, bit) { one } else { zero }
}

impl Index {
    ghost use Rattle.std.specs.Prelude.{◌≡◌, ◌≤◌, IfOk, IfSome, Some, length, slice_get};
    ghost use Rattle.razor_limits.specs.declared.limits.TheConstants.{MOST_ENTRIES};
    ghost use Rattle.ternary_words.specs.Headline.Word.{header_bits};
    ghost use Rattle.bank_index.specs.Hits.{all_slots, decision_at, first_of, hits};

    /// The index of these entries.
    pub(crate) fn of(alloc: Global, entries: &[Entry]) -> Result<Index, Memory>
        requires few { length entries.now ≤ MOST_ENTRIES }
        ensures { IfOk result (λ index. index.entries.items ≡ entries.now) }
    {
        let count = entries.len();
        let entries = entries.to_vec(alloc)?;
        let mut nodes = Vec::new(alloc);
        let slots = below(alloc, count as u32)?;
        let room = count.saturating_mul(COPIES);
        let root = grow(alloc, &mut nodes, &entries, slots, room, STEPS - 1)?;
        Ok(Index {
            entries,
            nodes,
            root,
        })
    }

    /// The node at the place.
    #[inline]
    fn node(&self, place: u32) -> Option<&Node>
        ensures { IfSome result (λ node. slice_get self.now.nodes.items place ≡ Some node.now) }
    {
        self.nodes.get(place as usize)
    }

    /// Slots of which the first that matches the header is the first of all; none where these aren't known.
    pub(crate) fn slots(&self, header: &Header) -> Option<&[u32]>
        ensures { IfSome result (λ slots. first_of self.now.entries.items (header_bits header.now.values) slots.now
            ≡ first_of self.now.entries.items (header_bits header.now.values) (all_slots self.now.entries.items)) }
    {
        let key = key(header.values);
        let mut place = self.root;
        for _step in 0..STEPS {
            match self.node(place) {
                Some(Node::Split { bit, zero, one }) => place = next(key, *bit, *zero, *one),
                Some(Node::Leaf(slots)) => return Some(slots),
                _ => return None,
            }
        }
        None
    }

    /// Whether the slot's word matches the header.
    #[inline]
    fn hits(&self, slot: u32, header: &Header) -> bool
        ensures { result ≡ hits self.now.entries.items (header_bits header.now.values) slot }
    {
        match self.entries.get(slot as usize) {
            Some(entry) => entry.word.matches(header),
            None => false,
        }
    }

    /// The first of the slots whose word matches the header.
    pub(crate) fn first(&self, slots: &[u32], header: &Header) -> Option<u32>
        ensures { result ≡ first_of self.now.entries.items (header_bits header.now.values) slots.now }
    {
        slots.iter().copied().find(|slot| self.hits(*slot, header))
    }

    /// The decision in a slot.
    pub(crate) fn decision(&self, slot: u32) -> u32
        ensures { result ≡ decision_at self.now.entries.items slot }
    {
        match self.entries.get(slot as usize) {
            Some(entry) => entry.decision,
            None => 0,
        }
    }
}
