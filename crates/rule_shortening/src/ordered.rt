//! The shorter of two tables: the one that is searched for, and the one that is composed in an order of the fields.
ghost use Rattle.std.specs.Prelude.{◌≡◌, ◌≤◌, ◌<◌, ℕ, List, All, IfOk, MatchResult, length};
ghost use Rattle.field_boxes.specs.Headline.Classifier as classifiers;
ghost use Rattle.field_boxes.specs.NamedRules.{IsNumberedBy, named_rules};
ghost use Rattle.razor_limits.specs.declared.limits.TheConstants.{MOST_RULES};
ghost use Rattle.ternary_words.specs.Views.{table_of};
ghost use Rattle.rule_compilation.specs.Compiled.{IsCompiledIn};
ghost use Rattle.rule_shortening.specs.Shortened.{IsRefused, IsRefusedIn, IsShortTable, IsShortTableIn};
ghost use Rattle.table_compose.specs.Headline.LeastCost.{IsLeastCost};

use crate::refusal::ShortenError;
use crate::shortening::shorten;
use field_boxes::{Decisions, Order, Rule};
use rule_compilation::compile_in;
use std::alloc::Global;
use table_compose::ComposeError;
use table_compose::laws::one_least_cost;
use ternary_words::{Limit, SlotWidth, Table};

/// The short table of the rules as [`shorten`](crate::shorten) makes it, or the table that is composed in the order of the fields, without its
/// redundant entries, where that is shorter. So it has at most as many entries as the rules cost field by field in the order.
///
/// It is refused only where the direct expansion and that cost are both above `limit`.
pub fn shorten_in(
    alloc: Global,
    order: &Order,
    rules: &[Rule],
    names: &Decisions,
    limit: Limit,
    slot: SlotWidth,
) -> Result<Table, ShortenError>
    requires few { length rules.now ≤ MOST_RULES }
    requires numbered { All (IsNumberedBy names.now) rules.now }
    ensures table { MatchResult result
        (λ table. IsShortTableIn order.now (named_rules names.now rules.now) limit.count slot.bits (table_of table))
        (λ e. IsRefusedIn order.now (named_rules names.now rules.now) limit.count e) }
    ensures names { IfOk result (λ table. table.names ≡ names.now) }
{
    let searched = shorten(alloc, rules, names, limit, slot);
    match compile_in(alloc, order, rules, names, limit, slot) {
        Ok(composed) => beside(composed, limit.count, searched),
        Err(ComposeError::TooMany { needed, .. }) => alone(needed, limit.count, searched),
        Err(ComposeError::Memory) => Err(ShortenError::Memory),
    }
}

/// The shorter of both tables, where there are two.
fn beside(
    composed: Table,
    limit: u32,
    searched: Result<Table, ShortenError>,
) -> Result<Table, ShortenError>
    ensures table { (order : List ℕ) (rules : List (classifiers.Rule (List ℕ))) (width : ℕ) → composed.composed ≤ limit → IsCompiledIn order rules width (table_of composed) →
        MatchResult searched (λ table. IsShortTable rules limit width (table_of table)) (λ e. IsRefused rules limit e) →
        MatchResult result (λ table. IsShortTableIn order rules limit width (table_of table)) (λ e. IsRefusedIn order rules limit e) }
    ensures names { (names : List (List ℕ)) → composed.names ≡ names → IfOk searched (λ table. table.names ≡ names) → IfOk result (λ table. table.names ≡ names) }
{
    one_least_cost();
    match searched {
        Ok(searched) => Ok(shorter(searched, composed)),
        Err(error) => match error {
            ShortenError::TooMany { .. } => Ok(counted(composed)),
            ShortenError::Memory => Err(error),
        },
    }
}

/// The table that was searched for, where the composed one has so many entries before any are taken out, more than the limit.
fn alone(
    cost: u128,
    limit: u32,
    searched: Result<Table, ShortenError>,
) -> Result<Table, ShortenError>
    ensures table { (order : List ℕ) (rules : List (classifiers.Rule (List ℕ))) (width : ℕ) → IsLeastCost order rules cost → limit < cost →
        MatchResult searched (λ table. IsShortTable rules limit width (table_of table)) (λ e. IsRefused rules limit e) →
        MatchResult result (λ table. IsShortTableIn order rules limit width (table_of table)) (λ e. IsRefusedIn order rules limit e) }
    ensures names { (names : List (List ℕ)) → IfOk searched (λ table. table.names ≡ names) → IfOk result (λ table. table.names ≡ names) }
{
    one_least_cost();
    match searched {
        Ok(searched) => Ok(searched),
        Err(ShortenError::TooMany { needed, .. }) => Err(ShortenError::TooMany {
            needed: needed.min(cost),
            limit,
        }),
        Err(ShortenError::Memory) => Err(ShortenError::Memory),
    }
}

/// The shorter of two tables; the first where they are as short.
fn shorter(searched: Table, composed: Table) -> Table
    ensures table { (order : List ℕ) (rules : List (classifiers.Rule (List ℕ))) (limit width : ℕ) →
        IsShortTable rules limit width (table_of searched) → IsCompiledIn order rules width (table_of composed) →
        IsShortTableIn order rules limit width (table_of result) }
    ensures names { (names : List (List ℕ)) → searched.names ≡ names → composed.names ≡ names → result.names ≡ names }
{
    one_least_cost();
    if searched.entries.len() <= composed.entries.len() {
        searched
    } else {
        counted(composed)
    }
}

/// The table, of which is said how many entries it has.
fn counted(table: Table) -> Table
    ensures table { table_of result ≡ record (table_of table) { composed = length table.entries.items } }
    ensures names { result.names ≡ table.names }
{
    let Table {
        slot,
        entries,
        names,
        ..
    } = table;
    Table {
        slot,
        composed: entries.len() as u32,
        entries,
        names,
    }
}
