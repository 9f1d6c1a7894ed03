//! What compiling lists works out, kept from one list to the next.

use fdd_build::Builder;
use field_boxes::{Decisions, Rule};
use node_store::Store;
use razor_limits::Memory;
use redundancy::Removal;
use redundancy::laws::removal_lasts;
use std::alloc::Global;
use table_compose::laws::{distinct_names_tell_apart, one_least_cost, plans_last};
use table_compose::{ComposeError, Plans};
use ternary_words::{Entry, Limit, SlotWidth, Table};

/// A store of diagrams that read the fields in one order, and what was worked out of its nodes.
///
/// A store only gains nodes, and what they answer never changes. So all that was worked out for one list is true for the
/// next, and serves it where it has nodes in common. Nothing here speaks of a list.
#[derive(Drop)]
pub(crate) struct Kept<'a> {
    store: Store,
    builder: Builder,
    plans: Plans,
    removal: Removal<'a>,
    first_count: usize,
}

/// The entries that are needed of a composed table, and how many the whole table has.
#[derive(Drop)]
struct TightTable {
    composed: u32,
    entries: Vec<Entry>,
}

impl<'a> Kept<'a> {
    ghost use Rattle.std.specs.Prelude.{◌≡◌, ◌≤◌, ℕ, List, All, IfOk, MatchResult};
    ghost use Rattle.field_boxes.specs.NamedRules.{IsNumberedBy, named_rules};
    ghost use Rattle.node_store.specs.Diagram.{Node};
    ghost use Rattle.node_store.specs.Levels.{IsLevel};
    ghost use Rattle.ternary_words.specs.Views.{table_of};
    ghost use Rattle.fdd_build.specs.Builders.{IsBuilderOf};
    ghost use Rattle.field_boxes.specs.Orders.{IsOrder};
    ghost use Rattle.redundancy.specs.Removal.{UnlessMemory};
    ghost use Rattle.table_compose.specs.Headline.LeastCost.{IsLeastCost};
    ghost use Rattle.rule_compilation.specs.Compiled.{IsCompiledIn, IsRefusedIn};
    ghost use Rattle.rule_compilation.specs.Entries.{AreTightOf};
    ghost use Rattle.rule_compilation.specs.Kept.{IsTrue};

    /// Nothing is worked out yet, and lists come one after another.
    pub(crate) fn new(alloc: Global, order: &[u8]) -> Result<Kept<'a>, Memory>
        requires { IsLevel order.now }
        ensures { IfOk result (IsTrue order.now) }
    {
        let mut store = Store::new(alloc);
        let builder = Builder::new(alloc, &mut store, order)?;
        Ok(Kept::begun(alloc, store, builder))
    }

    /// Nothing is worked out yet, and one list comes.
    pub(crate) fn once(alloc: Global, order: &[u8]) -> Result<Kept<'a>, Memory>
        requires { IsLevel order.now }
        ensures { IfOk result (IsTrue order.now) }
    {
        let mut store = Store::new(alloc);
        let builder = Builder::once(alloc, &mut store, order)?;
        Ok(Kept::begun(alloc, store, builder))
    }

    /// Nothing is worked out yet of the nodes of the store.
    fn begun(alloc: Global, store: Store, builder: Builder) -> Kept<'a>
        ensures { (order : List ℕ) → IsBuilderOf store order builder → IsTrue order result }
    {
        Kept {
            store,
            builder,
            plans: Plans::new(alloc),
            removal: Removal::new(alloc),
            first_count: 0,
        }
    }

    /// The table of the list, for slots of the width: see [`crate::compile_in`].
    ///
    /// Where memory was refused, what is kept is of no more use.
    pub(crate) fn compile(
        &mut self,
        alloc: Global,
        order: &'a [u8],
        rules: &[Rule],
        names: &Decisions,
        limit: Limit,
        slot: SlotWidth,
    ) -> Result<Table, ComposeError>
        requires order { IsOrder order.now }
        requires kept { IsTrue order.now self.old }
        requires numbered { All (IsNumberedBy names.now) rules.now }
        ensures table { MatchResult result
            (λ table. IsCompiledIn order.now (named_rules names.now rules.now) slot.bits (table_of table))
            (λ e. IsRefusedIn order.now (named_rules names.now rules.now) limit.count e) }
        ensures names { IfOk result (λ table. table.names ≡ names.now) }
        ensures room { IfOk result (λ table. (needed : ℕ) → IsLeastCost order.now (named_rules names.now rules.now) needed → needed ≤ limit.count) }
        ensures kept { UnlessMemory result (IsTrue order.now self.new) }
    {
        one_least_cost();
        names.are_names();
        let limit = limit.count;
        let TightTable { composed, entries } = self.tight_table(alloc, order, rules, names, limit)?;
        let names = names.copy(alloc)?;
        Ok(Table {
            slot,
            composed,
            entries,
            names,
        })
    }

    /// Builds the diagram of the list, plans its fields, and keeps what is needed of the table that is composed by the plans,
    /// which has as many entries as the least cost.
    fn tight_table(
        &mut self,
        alloc: Global,
        order: &'a [u8],
        rules: &[Rule],
        names: &Decisions,
        limit: u32,
    ) -> Result<TightTable, ComposeError>
        requires order { IsOrder order.now }
        requires kept { IsTrue order.now self.old }
        requires numbered { All (IsNumberedBy names.now) rules.now }
        ensures table { MatchResult result
            (λ table. AreTightOf order.now names.now (named_rules names.now rules.now) table.composed table.entries.items)
            (λ e. IsRefusedIn order.now (named_rules names.now rules.now) limit e) }
        ensures within { IfOk result (λ table. table.composed ≤ limit) }
        ensures kept { UnlessMemory result (IsTrue order.now self.new) }
    {
        names.are_names();
        distinct_names_tell_apart();
        plans_last();
        removal_lasts();
        let root = self.builder.build(alloc, &mut self.store, order, rules)?;
        self.store.same_answers();
        self.plans.learn(alloc, &self.store, order, root, limit)?;
        let entries = self
            .removal
            .needed(alloc, &self.store, &self.plans, order, root)?;
        let composed = self.plans.cost(root) as u32;
        Ok(TightTable { composed, entries })
    }

    /// Whether there are more than twice as many nodes as after the first list.
    pub(crate) fn has_doubled(&self) -> bool {
        self.count() / 2 > self.first_count
    }

    /// Remembers how many nodes there are after the first list.
    pub(crate) fn count_first(&mut self)
        ensures { (order : List ℕ) → IsTrue order self.old → IsTrue order self.new }
    {
        if self.first_count == 0 {
            self.first_count = self.count();
        }
    }

    /// How many nodes there are, with those of the sets of headers.
    fn count(&self) -> usize {
        self.store.count().saturating_add(self.removal.count())
    }
}
