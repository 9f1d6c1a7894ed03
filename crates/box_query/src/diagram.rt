//! The diagram in which a query finds its boxes.
ghost use Rattle.std.specs.Prelude.{◌≡◌, ℕ, List, if◌then◌else◌, IfOk};
ghost use Rattle.field_boxes.specs.Boxes.{box_of, box_holds};
ghost use Rattle.field_boxes.specs.Headline.Fields.{stated, IsHeader};
ghost use Rattle.node_store.specs.Diagram.{level_of, answer};
ghost use Rattle.fdd_build.specs.Rules.{decided};
ghost use Rattle.box_query.specs.Asked.{label};

use crate::asked::asked;
use fdd_build::build;
use field_boxes::{Rule, Span};
use node_store::{NodeId, Store, stated_order};
use razor_base::Memory;
use std::alloc::Global;

/// The diagram that answers 1 where the box holds the header and the rules decide as wanted, and 2
/// elsewhere.
pub(crate) fn wanted(
    alloc: Global,
    store: &mut Store,
    rules: &[Rule],
    spans: &[Span; 5],
    decision: u32,
) -> Result<NodeId, Memory>
    ensures level { IfOk result (λ id. level_of store.new id.0 ≡ stated) }
    ensures answers { IfOk result (λ id. (header : List ℕ) → IsHeader header → answer store.new id.0 header ≡
        (if box_holds (box_of spans.now) header then label decision (decided stated rules.now header) else 2)) }
{
    let rules = asked(alloc, rules, spans, decision)?;
    let id = build(alloc, store, &stated_order(), &rules)?;
    Ok(id)
}
