//! A diagram changed in one box. It is for users of the library: no command does so.
ghost use Rattle.std.specs.Prelude.{◌≡◌, ℕ, List, ◌&&◌, nat_eq, if◌then◌else◌, IfOk};
ghost use Rattle.field_boxes.specs.Headline.Fields.{stated, IsHeader, AreValues};
ghost use Rattle.field_boxes.specs.Headline.Classifier.{matches};
ghost use Rattle.field_boxes.specs.Spans.{AreInside};
ghost use Rattle.field_boxes.specs.Boxes.{AreSets, box_of, box_holds};
ghost use Rattle.field_boxes.specs.Rules.{rule_of};
ghost use Rattle.node_store.specs.Levels.{IsLevel};
ghost use Rattle.node_store.specs.Diagram.{level_of, answer};
ghost use Rattle.node_store.specs.Store.{Grows};
ghost use Rattle.fdd_build.specs.Sets.{sets_seen, box_rule};

use crate::boxes::{boxed, sets_of_spans};
use crate::laying::Laying;
use crate::nothing::nothing_from;
use crate::overlay::Overlay;
use field_boxes::{Rule, Span};
use node_store::{NodeId, Store, stated_order};
use razor_limits::Memory;
use std::alloc::Global;

/// The decision where the diagram answers 0 and the box holds the header, elsewhere its own answer.
///
/// The store keeps what all its numbers mean, and may have gained nodes, also after a refusal of memory.
pub fn under(
    alloc: Global,
    store: &mut Store,
    above: NodeId,
    spans: &[Span; 5],
    decision: u32,
) -> Result<NodeId, Memory>
    requires above { level_of store.old above.0 ≡ stated }
    requires inside { AreInside spans.now }
    ensures level { IfOk result (λ id. level_of store.new id.0 ≡ stated) }
    ensures answers { IfOk result (λ id. (header : List ℕ) → IsHeader header →
        answer store.new id.0 header ≡
        (if nat_eq (answer store.old above.0 header) 0 && box_holds (box_of spans.now) header then decision else answer store.old above.0 header)) }
    ensures grows { Grows store.old store.new }
{
    under_sets(
        alloc,
        store,
        &stated_order(),
        above,
        &sets_of_spans(spans),
        decision,
    )
}

/// The rule's decision where the diagram answers 0 and the rule matches, elsewhere its own answer.
///
/// The store keeps what all its numbers mean, and may have gained nodes, also after a refusal of memory.
pub fn under_rule(
    alloc: Global,
    store: &mut Store,
    above: NodeId,
    rule: &Rule,
) -> Result<NodeId, Memory>
    requires { level_of store.old above.0 ≡ stated }
    ensures level { IfOk result (λ id. level_of store.new id.0 ≡ stated) }
    ensures answers { IfOk result (λ id. (header : List ℕ) → IsHeader header →
        answer store.new id.0 header ≡
        (if nat_eq (answer store.old above.0 header) 0 && matches stated header (rule_of rule.now) then rule.now.decision else answer store.old above.0 header)) }
    ensures grows { Grows store.old store.new }
{
    under_sets(
        alloc,
        store,
        &stated_order(),
        above,
        &rule.sets(),
        rule.decision,
    )
}

/// The decision in the box, elsewhere the answer of the diagram below. The decision may be 0.
///
/// The store keeps what all its numbers mean, and may have gained nodes, also after a refusal of memory.
pub fn over(
    alloc: Global,
    store: &mut Store,
    spans: &[Span; 5],
    decision: u32,
    below: NodeId,
) -> Result<NodeId, Memory>
    requires inside { AreInside spans.now }
    requires below { level_of store.old below.0 ≡ stated }
    ensures level { IfOk result (λ id. level_of store.new id.0 ≡ stated) }
    ensures answers { IfOk result (λ id. (header : List ℕ) → IsHeader header →
        answer store.new id.0 header ≡ (if box_holds (box_of spans.now) header then decision else answer store.old below.0 header)) }
    ensures grows { Grows store.old store.new }
{
    over_sets(
        alloc,
        store,
        &stated_order(),
        &sets_of_spans(spans),
        decision,
        below,
    )
}

/// The decision where the diagram answers 0, in a box, elsewhere its own answer.
fn under_sets(
    alloc: Global,
    store: &mut Store,
    level: &[u8],
    above: NodeId,
    sets: &[&[Span]; 5],
    decision: u32,
) -> Result<NodeId, Memory>
    requires level { IsLevel level.now }
    requires above { level_of store.old above.0 ≡ level.now }
    requires inside { AreSets (sets_seen sets.now) }
    ensures level { IfOk result (λ id. level_of store.new id.0 ≡ level.now) }
    ensures answers { IfOk result (λ id. (values : List ℕ) → AreValues level.now values →
        answer store.new id.0 values ≡
        (if nat_eq (answer store.old above.0 values) 0 && matches level.now values (box_rule (sets_seen sets.now)) then decision else answer store.old above.0 values)) }
    ensures grows { Grows store.old store.new }
{
    let nothing = nothing_from(alloc, store, level)?;
    let added = boxed(alloc, store, level, nothing.as_slice(), sets, decision)?;
    let laying = Laying {
        overlay: Overlay::Answer,
        nothing,
    };
    let id = laying.lay(alloc, store, level, above, added)?;
    Ok(id)
}

/// The decision in a box, elsewhere the answer of the diagram below.
pub(crate) fn over_sets(
    alloc: Global,
    store: &mut Store,
    level: &[u8],
    sets: &[&[Span]; 5],
    decision: u32,
    below: NodeId,
) -> Result<NodeId, Memory>
    requires level { IsLevel level.now }
    requires inside { AreSets (sets_seen sets.now) }
    requires below { level_of store.old below.0 ≡ level.now }
    ensures level { IfOk result (λ id. level_of store.new id.0 ≡ level.now) }
    ensures answers { IfOk result (λ id. (values : List ℕ) → AreValues level.now values →
        answer store.new id.0 values ≡ (if matches level.now values (box_rule (sets_seen sets.now)) then decision else answer store.old below.0 values)) }
    ensures grows { Grows store.old store.new }
{
    let nothing = nothing_from(alloc, store, level)?;
    let inside = boxed(alloc, store, level, nothing.as_slice(), sets, 1)?;
    let laying = Laying {
        overlay: Overlay::Decision(decision),
        nothing,
    };
    let id = laying.lay(alloc, store, level, inside, below)?;
    Ok(id)
}
