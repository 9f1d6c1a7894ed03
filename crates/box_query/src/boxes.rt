//! The boxes in which a list decides as asked.
ghost use Rattle.std.specs.Prelude.{◌≡◌, ◌≤◌, length, IfOk, IfErr, OnOk, IsErrOf};
ghost use Rattle.razor_limits.specs.Counts.{Rose};
ghost use Rattle.razor_base.specs.Headline.Outcomes.{Extends};
ghost use Rattle.razor_base.specs.Output.{Writes};
ghost use Rattle.field_boxes.specs.Headline.Fields.{stated};
ghost use Rattle.field_boxes.specs.Names.{name_at};
ghost use Rattle.field_boxes.specs.Spans.{AreInside, intervals_of};
ghost use Rattle.field_boxes.specs.Lists.{filter_list};
ghost use Rattle.node_store.specs.Diagram.{level_of};
ghost use Rattle.box_query.specs.BoxText.{boxes_text};
ghost use Rattle.box_query.specs.NodeBoxes.{node_boxes};
ghost use Rattle.box_query.specs.Outcome.{AreWritesOf, Ends, IsWritten};
ghost use Rattle.box_query.specs.declared.error.QueryError.TheVariants.{Fault, Memory};

use crate::diagram::wanted;
use crate::error::QueryError;
use crate::line::Line;
use crate::walk::Walk;
use field_boxes::{RuleList, Span};
use node_store::{NodeId, Store, stated_order};
use razor_base::{Failed, Pending, Sink};
use std::alloc::Global;

/// Writes the boxes that hold exactly the headers of the given box which the list decides by the name
/// with the number, 0 for the headers that no rule matches. Answers how many boxes there are.
///
/// A line has the five intervals of a box as `lo-hi`, parted by single spaces. The boxes rise, grouped
/// field by field. They are counted as they are written, and none is kept: there may be far more of them
/// than rules. The cost is that of one diagram of the rules inside the box, and of the boxes. A front of
/// the lines was written where a write failed; where memory is refused, nothing was.
pub fn query<K: Sink>(
    alloc: Global,
    list: &RuleList,
    spans: &[Span; 5],
    decision: u32,
    out: &mut K,
) -> Result<u128, QueryError>
    requires inside { AreInside spans.now }
    requires known { decision ≤ length list.now.names }
    ensures ok { IfOk result (λ boxes. IsWritten (filter_list list.now).rules (intervals_of spans.now) (name_at list.now.names decision) (K.written out.old) (K.written out.new) boxes) }
    ensures err { IfErr result (λ error. Ends (filter_list list.now).rules (intervals_of spans.now) (name_at list.now.names decision) (K.written out.old) (K.written out.new) error) }

    // A fault comes only where the sink's count of them rose, which never falls, and else the count stayed.
    ensures fault { IsErrOf result Fault → Rose (K.faults out.old) (K.faults out.new) }
    ensures memory { IsErrOf result Memory → K.faults out.new ≡ K.faults out.old }
    ensures calm { OnOk result (K.faults out.new ≡ K.faults out.old) }
    ensures counts { K.faults out.old ≤ K.faults out.new }

    // No write failed but the last one of a query that ends by it.
    ensures writes { Extends (K.written out.old) (K.written out.new) (AreWritesOf result) }
{
    let mut store = Store::new(alloc);
    let diagram = wanted(alloc, &mut store, &list.rules, spans, decision)?;
    list.names.are_names();
    store.same_answers();
    let boxes = write_boxes(&store, diagram, out)?;
    Ok(boxes)
}

/// Writes the boxes of a diagram, and says how many they are.
#[inline(never)]
fn write_boxes<K: Sink>(store: &Store, id: NodeId, out: &mut K) -> Result<u128, Failed>
    requires { level_of store.now id.0 ≡ stated }
    ensures text { Writes K.written K.faults out.old out.new (boxes_text (node_boxes store.now stated id.0)) result }
    ensures count { IfOk result (λ n. n ≡ length (node_boxes store.now stated id.0)) }
{
    let walk = Walk { store };
    let mut pending = Pending::new();
    let boxes = walk.boxes(&stated_order(), id, &Line::new(), &mut pending, out)?;
    pending.flush(out)?;
    Ok(boxes)
}
