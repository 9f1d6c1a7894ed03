//! The diagram of one box: a set of values for each field, as a slice of spans.
ghost use Rattle.std.specs.Prelude.{◌≡◌, ℕ, List, if◌then◌else◌, IfOk};
ghost use Rattle.field_boxes.specs.Headline.Fields.{AreValues};
ghost use Rattle.field_boxes.specs.Headline.Classifier.{matches};
ghost use Rattle.field_boxes.specs.Spans.{AreInside};
ghost use Rattle.field_boxes.specs.Boxes.{AreSets, box_of};
ghost use Rattle.node_store.specs.Levels.{IsLevel};
ghost use Rattle.node_store.specs.Diagram.{level_of, answer};
ghost use Rattle.node_store.specs.Store.{Grows};
ghost use Rattle.fdd_build.specs.Nothing.{AreNothing};
ghost use Rattle.fdd_build.specs.Sets.{sets_seen, box_rule};

use crate::fork::forked;
use field_boxes::Span;
use node_store::{NodeId, Store};
use razor_limits::Memory;
use std::alloc::Global;
use std::slice::from_ref;

/// The sets of a box of one span for each field.
pub(crate) fn sets_of_spans(spans: &[Span; 5]) -> [&[Span]; 5]
    requires { AreInside spans.now }
    ensures sets { sets_seen result ≡ box_of spans.now }
    ensures inside { AreSets (box_of spans.now) }
{
    let [source, destination, source_port, destination_port, protocol] = spans;
    [
        from_ref(source),
        from_ref(destination),
        from_ref(source_port),
        from_ref(destination_port),
        from_ref(protocol),
    ]
}

/// The diagram over the level's fields that answers the decision in the box and 0 outside.
pub(crate) fn boxed(
    alloc: Global,
    store: &mut Store,
    level: &[u8],
    nothing: &[NodeId],
    sets: &[&[Span]; 5],
    decision: u32,
) -> Result<NodeId, Memory>
    requires level { IsLevel level.now }
    requires nothing { AreNothing store.old level.now nothing.now }
    requires inside { AreSets (sets_seen sets.now) }
    ensures level { IfOk result (λ id. level_of store.new id.0 ≡ level.now) }
    ensures answers { IfOk result (λ id. (values : List ℕ) → AreValues level.now values →
        answer store.new id.0 values ≡ (if matches level.now values (box_rule (sets_seen sets.now)) then decision else 0)) }
    ensures grows { Grows store.old store.new }
{
    if level.is_empty() {
        let leaf = store.leaf(decision)?;
        return Ok(leaf);
    }
    let inside = boxed(alloc, store, &level[1..], &nothing[1..], sets, decision)?;
    let outside = nothing[1];
    let set = sets[usize::from(level[0])];
    let id = forked(alloc, store, level, set, inside, outside)?;
    Ok(id)
}
