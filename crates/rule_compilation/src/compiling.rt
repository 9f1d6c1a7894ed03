//! The table of a rule list.
//! `compose_in` is for users of the library: no command calls it.
ghost use Rattle.std.specs.Prelude.{◌≡◌, ◌≤◌, ℕ, All, IfOk, MatchResult};
ghost use Rattle.field_boxes.specs.Headline.Fields.{stated};
ghost use Rattle.field_boxes.specs.NamedRules.{IsNumberedBy, named_rules};
ghost use Rattle.ternary_words.specs.Views.{table_of};
ghost use Rattle.table_compose.specs.Headline.LeastCost.{IsLeastCost};
ghost use Rattle.rule_compilation.specs.Compiled.{IsCompiled, IsCompiledIn, IsRefused, IsRefusedIn};
ghost use Rattle.rule_compilation.specs.Entries.{AreEntriesOf};

use crate::kept::Kept;
use fdd_build::build;
use field_boxes::{Decisions, Order, Rule};
use node_store::Store;
use std::alloc::Global;
use table_compose::laws::{distinct_names_tell_apart, one_least_cost};
use table_compose::{ComposeError, compose};
use ternary_words::{Entry, Limit, SlotWidth, Table};

/// The table that decides every header as the rules do, for slots of the width.
///
/// It says as `composed` the field-by-field least cost of the rules, and has at most so many entries. Where
/// that is more than `limit`, no entry is written. A header that no rule matches meets an
/// entry that decides nothing, written `miss`.
///
/// Time and room go by the diagrams of the rules and by the entries.
pub fn compile(
    alloc: Global,
    rules: &[Rule],
    names: &Decisions,
    limit: Limit,
    slot: SlotWidth,
) -> Result<Table, ComposeError>
    requires numbered { All (IsNumberedBy names.now) rules.now }
    ensures table { MatchResult result
        (λ table. IsCompiled (named_rules names.now rules.now) slot.bits (table_of table))
        (λ e. IsRefused (named_rules names.now rules.now) limit.count e) }
    ensures names { IfOk result (λ table. table.names ≡ names.now) }
    ensures room { IfOk result (λ table. (needed : ℕ) → IsLeastCost stated (named_rules names.now rules.now) needed → needed ≤ limit.count) }
{
    compile_in(alloc, &Order::stated(), rules, names, limit, slot)
}

/// The same by diagrams and tables that read the fields in the order: `composed` is the least cost in that order.
pub fn compile_in(
    alloc: Global,
    order: &Order,
    rules: &[Rule],
    names: &Decisions,
    limit: Limit,
    slot: SlotWidth,
) -> Result<Table, ComposeError>
    requires numbered { All (IsNumberedBy names.now) rules.now }
    ensures table { MatchResult result
        (λ table. IsCompiledIn order.now (named_rules names.now rules.now) slot.bits (table_of table))
        (λ e. IsRefusedIn order.now (named_rules names.now rules.now) limit.count e) }
    ensures names { IfOk result (λ table. table.names ≡ names.now) }
    ensures room { IfOk result (λ table. (needed : ℕ) → IsLeastCost order.now (named_rules names.now rules.now) needed → needed ≤ limit.count) }
{
    let level = order.fields();
    let mut kept = Kept::once(alloc, level)?;
    kept.compile(alloc, level, rules, names, limit, slot)
}

/// The table that is composed in the order, whole: as many entries as the least cost, of which many may be left out.
///
/// Where the least cost is more than `limit`, no entry is made; any other refusal is one of memory. An entry decides the
/// number of one of the names, or 0, which is nothing.
pub fn compose_in(
    alloc: Global,
    order: &Order,
    rules: &[Rule],
    names: &Decisions,
    limit: u32,
) -> Result<Vec<Entry>, ComposeError>
    requires numbered { All (IsNumberedBy names.now) rules.now }
    ensures entries { MatchResult result
        (λ entries. AreEntriesOf order.now names.now (named_rules names.now rules.now) entries.items)
        (λ e. IsRefusedIn order.now (named_rules names.now rules.now) limit e) }
    ensures room { IfOk result (λ entries. (needed : ℕ) → IsLeastCost order.now (named_rules names.now rules.now) needed → needed ≤ limit) }
{
    names.are_names();
    distinct_names_tell_apart();
    one_least_cost();
    let level = order.fields();
    let mut store = Store::new(alloc);
    let root = build(alloc, &mut store, level, rules)?;
    store.same_answers();
    compose(alloc, &store, level, root, limit)
}
