//! What removal works out, kept from one table to the next.

use crate::blocks::Blocks;
use crate::blocks::node_blocks::Known;
use crate::diagrams::add_kept;
use crate::entry_table::flags_by;
use crate::sets::Sets;
use crate::sifting::Memo;
use field_boxes::Prefix;
use node_store::{NodeId, Store};
use razor_limits::Memory;
use redundancy_laws::laws::one_pass;
use std::alloc::Global;
use table_compose::Plans;
use ternary_words::Entry;

/// What removal worked out of the nodes of one store and their plans.
///
/// The store may gain nodes between two calls and the plans learn more, since old numbers keep what they mean.
#[derive(Drop)]
pub struct Removal<'a> {
    sets: Sets,
    blocks: Blocks<'a>,
    known: Known,
    memo: Memo,
}

/// The whole of each field.
const OPEN: [Prefix; 5] = [Prefix { value: 0, len: 0 }; 5];

impl<'a> Removal<'a> {
    ghost use Rattle.std.specs.Prelude.{◌≡◌, ◌≤◌, ℕ, List, [], All, length, slice_index, IfOk, OnOk};
    ghost use Rattle.std.specs.List.{AllZip};
    ghost use Rattle.field_boxes.specs.Headline.Fields.{IsHeader};
    ghost use Rattle.node_store.specs.Diagram.{Node, answer as diagram_answer, level_of};
    ghost use Rattle.ternary_words.specs.declared.entry.Entry as entries_of;
    ghost use Rattle.table_compose.specs.declared.diagram_plans.Plans as plans_of;
    ghost use Rattle.table_compose.specs.Plans.{ArePlansOf, IsMarked};
    ghost use Rattle.table_compose.specs.Rows.{rows_at};
    ghost use Rattle.table_compose.specs.Composed.{HaveLists, IsAnswer, IsPlaced, boxes, open_all};
    ghost use Rattle.ternary_words.specs.Entries.{ArePrefixes, answer};
    ghost use Rattle.field_boxes.specs.Alike.{IsTight};
    ghost use Rattle.redundancy_laws.specs.Flags.{with_flags};
    ghost use Rattle.field_boxes.specs.Orders.{IsOrder, picked};
    ghost use Rattle.redundancy_laws.specs.Pass.{Keeps};
    ghost use Rattle.redundancy.specs.Blocks.{rows_of, StandsAt};
    ghost use Rattle.redundancy.specs.Kept.{AreKeptOf};
    ghost use Rattle.redundancy.specs.NodeBlocks.{HasPlans, node_rows};
    ghost use Rattle.redundancy.specs.Removal.{IsRemovalOf};

    /// Nothing was worked out, which suits every store.
    pub fn new(alloc: Global) -> Removal<'a>
        ensures { (nodes : List Node) (plans : plans_of.Plans) → IsRemovalOf nodes plans result }
    {
        Removal {
            sets: Sets::new(alloc),
            blocks: Blocks::new(alloc),
            known: Known::new(alloc),
            memo: Memo::new(alloc),
        }
    }

    /// How many nodes its sets and answers have.
    pub fn count(&self) -> usize
        ensures { result ≡ length self.now.sets }
    {
        self.sets.count()
    }

    /// The entries that are needed of the composed table of a diagram whose plans are known, which reads the fields in the
    /// order: those that a pass from the last entry to the first keeps. The table has as many entries as the diagram costs.
    ///
    /// No entry is written that doesn't stay: time and room go by the diagram, and by what changes from run to run of
    /// the nodes' prefix lists. What is worked out is kept, and isn't worked out again; where memory was refused, it
    /// may be of no more use.
    pub fn needed(
        &mut self,
        alloc: Global,
        store: &Store,
        plans: &Plans,
        order: &'a [u8],
        root: NodeId,
    ) -> Result<Vec<Entry>, Memory>
        requires order { IsOrder order.now }
        requires root { level_of store.now root.0 ≡ order.now }
        requires plans { ArePlansOf store.now plans.now }
        requires known { IsMarked plans.now.known.items root.0 }
        requires removal { IsRemovalOf store.now plans.now self.old }

        // They are what a pass keeps of the whole table, which has as many entries as the diagram costs.
        ensures pass { IfOk result (λ kept. AreKeptOf store.now order.now root.0 (slice_index plans.now.costs.items root.0) kept.items) }
        ensures few { IfOk result (λ kept. length kept.items ≤ slice_index plans.now.costs.items root.0) }
        ensures tight { IfOk result (λ kept. IsTight answer kept.items) }
        // Every header has the diagram's answer.
        ensures answers { IfOk result (λ kept. (header : List ℕ) → IsHeader header →
            answer kept.items header ≡ diagram_answer store.now root.0 (picked order.now header)) }
        // Each entry decides what the diagram answers on some header.
        ensures decisions { IfOk result (λ kept. All (λ e. IsAnswer store.now order.now root.0 e.decision) kept.items) }
        ensures prefixes { IfOk result (λ kept. ArePrefixes kept.items) }
        // What is kept stays true.
        ensures removal { OnOk result (IsRemovalOf store.now plans.now self.new) }
    {
        one_pass();
        store.same_answers();
        let flags = self.flags(alloc, store, plans, order, root)?;
        let mut kept = Vec::new(alloc);
        add_kept(store, plans, order, OPEN, root, flags.as_slice(), &mut kept)?;
        Ok(kept)
    }

    /// Which entries of the composed table stay.
    fn flags(
        &mut self,
        alloc: Global,
        store: &Store,
        plans: &Plans,
        order: &'a [u8],
        root: NodeId,
    ) -> Result<Vec<bool>, Memory>
        requires order { IsOrder order.now }
        requires root { level_of store.now root.0 ≡ order.now }
        requires lists { HaveLists store.now (rows_at plans.now.lists.items) order.now root.0 }
        requires planned { HasPlans plans.now order.now root.0 }
        requires removal { IsRemovalOf store.now plans.now self.old }
        ensures kept { IfOk result (λ flags. (entries : List entries_of.Entry) → AllZip (IsPlaced order.now open_all) (boxes store.now (rows_at plans.now.lists.items) order.now root.0) entries →
            Keeps [] entries (with_flags entries flags.items)) }
        ensures removal { OnOk result (IsRemovalOf store.now plans.now self.new) }
    {
        store.same_answers();
        let block = self.block(alloc, store, plans, order, root)?;
        flags_by(
            alloc,
            &mut self.sets,
            &mut self.memo,
            &self.blocks,
            block,
            order,
        )
    }

    /// The block of the entries that the root composes.
    fn block(
        &mut self,
        alloc: Global,
        store: &Store,
        plans: &Plans,
        order: &'a [u8],
        root: NodeId,
    ) -> Result<usize, Memory>
        requires order { IsOrder order.now }
        requires root { level_of store.now root.0 ≡ order.now }
        requires lists { HaveLists store.now (rows_at plans.now.lists.items) order.now root.0 }
        requires planned { HasPlans plans.now order.now root.0 }
        requires removal { IsRemovalOf store.now plans.now self.old }
        ensures stands { IfOk result (λ number. StandsAt self.new.blocks order.now number) }
        ensures rows { IfOk result (λ number. rows_of self.new.blocks.blocks.items number ≡ node_rows store.now (rows_at plans.now.lists.items) order.now root.0) }
        ensures removal { OnOk result (IsRemovalOf store.now plans.now self.new) }
    {
        self.known.make_room(store.count())?;
        self.blocks.of_node(
            alloc,
            &mut self.sets,
            &mut self.known,
            store,
            plans,
            root,
            order,
        )
    }
}
