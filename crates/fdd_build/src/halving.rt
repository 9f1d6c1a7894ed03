//! The diagram of a rule list, from the diagrams of its halves.
ghost use Rattle.std.specs.Prelude.{◌≡◌, ℕ, List, [], ◌∷◌, if◌then◌else◌, IfOk};
ghost use Rattle.std.specs.List.{list_any};
ghost use Rattle.field_boxes.specs.Headline.Fields.{AreValues};
ghost use Rattle.node_store.specs.Levels.{IsLevel};
ghost use Rattle.node_store.specs.Diagram.{level_of, answer};
ghost use Rattle.node_store.specs.Store.{Grows};
ghost use Rattle.fdd_build.specs.Nothing.{AreNothing};
ghost use Rattle.fdd_build.specs.Builders.{IsBuilderOf};
ghost use Rattle.fdd_build.specs.Rules.{decided, hides};

use crate::boxes::boxed;
use crate::builder::Builder;
use crate::change::over_sets;
use crate::copying::copied;
use field_boxes::Rule;
use node_store::{NodeId, Store};
use razor_limits::Memory;
use std::alloc::Global;

/// A half of so many rules, or more, is built in a store of its own.
const LONG: usize = 4096;

/// The diagram that answers the decision of the first rule that matches, or 0 where none does. It reads
/// the fields of the order, and no others.
///
/// The list is halved, and the diagram of the first half is laid over that of the second. A rule may
/// decide 0; it hides the rules after it, and costs a walk of its own at each halving.
///
/// The store keeps what all its numbers mean, and may have gained nodes, also after a refusal of memory.
#[cycle(halves)]
pub fn build(
    alloc: Global,
    store: &mut Store,
    order: &[u8],
    rules: &[Rule],
) -> Result<NodeId, Memory>
    requires { IsLevel order.now }
    ensures level { IfOk result (λ id. level_of store.new id.0 ≡ order.now) }
    ensures answers { IfOk result (λ id. (values : List ℕ) → AreValues order.now values → answer store.new id.0 values ≡ decided order.now rules.now values) }
    ensures grows { Grows store.old store.new }
{
    let mut builder = Builder::once(alloc, store, order)?;
    let id = halved(alloc, &mut builder, store, order, rules)?;
    Ok(id)
}

/// The same, from the diagrams of the list's halves.
#[cycle(halves)]
pub(crate) fn halved(
    alloc: Global,
    builder: &mut Builder,
    store: &mut Store,
    order: &[u8],
    rules: &[Rule],
) -> Result<NodeId, Memory>
    requires order { IsLevel order.now }
    requires builder { IsBuilderOf store.old order.now builder.old }
    ensures level { IfOk result (λ id. level_of store.new id.0 ≡ order.now) }
    ensures answers { IfOk result (λ id. (values : List ℕ) → AreValues order.now values → answer store.new id.0 values ≡ decided order.now rules.now values) }
    ensures builder { IsBuilderOf store.new order.now builder.new }
    ensures grows { Grows store.old store.new }
{
    let nothing = builder.laying.nothing.as_slice();
    match rules {
        [] => Ok(nothing[0]),
        [rule] => one_rule(alloc, store, order, nothing, rule),
        _ => {
            let (first, second) = rules.split_at(rules.len() / 2);
            let upper = half(alloc, builder, store, order, first)?;
            let lower = half(alloc, builder, store, order, second)?;
            let lower = hidden(alloc, store, order, first, lower)?;
            let id = builder.lay(alloc, store, order, upper, lower)?;
            Ok(id)
        }
    }
}

/// The diagram of a half. A long half is built in a store of its own, and only what its diagram reaches is copied: the
/// rest is given back before the next half is built. A builder that keeps what pairs came to needs all in one store.
#[cycle(halves)]
fn half(
    alloc: Global,
    builder: &mut Builder,
    store: &mut Store,
    order: &[u8],
    rules: &[Rule],
) -> Result<NodeId, Memory>
    requires order { IsLevel order.now }
    requires builder { IsBuilderOf store.old order.now builder.old }
    ensures level { IfOk result (λ id. level_of store.new id.0 ≡ order.now) }
    ensures answers { IfOk result (λ id. (values : List ℕ) → AreValues order.now values → answer store.new id.0 values ≡ decided order.now rules.now values) }
    ensures builder { IsBuilderOf store.new order.now builder.new }
    ensures grows { Grows store.old store.new }
{
    if builder.keeps || rules.len() < LONG {
        return halved(alloc, builder, store, order, rules);
    }
    let mut apart = Store::new(alloc);
    let root = build(alloc, &mut apart, order, rules)?;
    let id = copied(alloc, &apart, root, store)?;
    Ok(id)
}

/// The diagram of one rule.
fn one_rule(
    alloc: Global,
    store: &mut Store,
    order: &[u8],
    nothing: &[NodeId],
    rule: &Rule,
) -> Result<NodeId, Memory>
    requires order { IsLevel order.now }
    requires nothing { AreNothing store.old order.now nothing.now }
    ensures level { IfOk result (λ id. level_of store.new id.0 ≡ order.now) }
    ensures answers { IfOk result (λ id. (values : List ℕ) → AreValues order.now values → answer store.new id.0 values ≡ decided order.now (rule.now ∷ []) values) }
    ensures grows { Grows store.old store.new }
{
    let id = boxed(alloc, store, order, nothing, &rule.sets(), rule.decision)?;
    Ok(id)
}

/// The diagram with 0 in the box of each rule that decides 0.
fn hidden(
    alloc: Global,
    store: &mut Store,
    order: &[u8],
    rules: &[Rule],
    below: NodeId,
) -> Result<NodeId, Memory>
    requires order { IsLevel order.now }
    requires below { level_of store.old below.0 ≡ order.now }
    ensures level { IfOk result (λ id. level_of store.new id.0 ≡ order.now) }
    ensures answers { IfOk result (λ id. (values : List ℕ) → AreValues order.now values →
        answer store.new id.0 values ≡ (if list_any (λ r. hides order.now r values) rules.now then 0 else answer store.old below.0 values)) }
    ensures grows { Grows store.old store.new }
{
    let mut shown = below;
    for rule in rules {
        shown = hidden_by(alloc, store, order, rule, shown)?;
    }
    Ok(shown)
}

/// The diagram with 0 in the box of the rule, if it decides 0.
fn hidden_by(
    alloc: Global,
    store: &mut Store,
    order: &[u8],
    rule: &Rule,
    below: NodeId,
) -> Result<NodeId, Memory>
    requires order { IsLevel order.now }
    requires below { level_of store.old below.0 ≡ order.now }
    ensures level { IfOk result (λ id. level_of store.new id.0 ≡ order.now) }
    ensures answers { IfOk result (λ id. (values : List ℕ) → AreValues order.now values →
        answer store.new id.0 values ≡ (if hides order.now rule.now values then 0 else answer store.old below.0 values)) }
    ensures grows { Grows store.old store.new }
{
    if rule.decision == 0 {
        over_sets(alloc, store, order, &rule.sets(), 0, below)
    } else {
        Ok(below)
    }
}
