//! The walk over two diagrams that writes a row for each pair of leaves.
ghost use Rattle.std.specs.Prelude.{◌≡◌, unwrap_or};
ghost use Rattle.box_partition.specs.Firsts.{number_answered};

use crate::stop::Stop;
use fdd_ops::{JointEdge, joint};
use field_boxes::Span;
use node_store::{NodeId, Store};
use partition_check::{Row, put_row};
use razor_base::{Pending, Sink};
use std::alloc::Global;

/// The number that a leaf's decision claims: none for 0.
fn number(decision: Option<u32>) -> Option<u32>
    ensures { result ≡ number_answered (unwrap_or decision 0) }
{
    match decision.unwrap_or(0) {
        0 => None,
        found => Some(found),
    }
}

/// A walk over two diagrams of one store.
#[derive(Drop)]
pub(crate) struct Walk<'a> {
    pub alloc: Global,
    pub store: &'a Store,
}

impl<'a> Walk<'a> {
    ghost use Rattle.std.specs.Prelude.{◌≡◌, ◌≤◌, ◌<◌, ◌+◌, ◌*◌, ℕ, suc, List, [], length, map, drop, take, IfOk};
    ghost use Rattle.std.specs.List.{flat_map};
    ghost use Rattle.field_boxes.specs.Headline.Fields.{stated};
    ghost use Rattle.field_boxes.specs.Fields.{greatest_of};
    ghost use Rattle.field_boxes.specs.Spans.{intervals_of};
    ghost use Rattle.node_store.specs.Diagram.{level_of};
    ghost use Rattle.node_store.specs.Edges.{AreFull};
    ghost use Rattle.node_store.specs.Split.{to_left, to_right};
    ghost use Rattle.node_store.specs.Store.{LeadTo};
    ghost use Rattle.partition_check.specs.Checking.{Statement};
    ghost use Rattle.partition_check.specs.Partition.{Group, rows_of};
    ghost use Rattle.box_partition.specs.Coarsest.{put_interval};
    ghost use Rattle.box_partition.specs.Rows.{AreRowsOf, ArePaired, rows_text, group_text, headers_from};
    ghost use Rattle.box_partition.specs.Output.{PutsUntil};

    /// Puts the rows of two nodes of a level, with the spans of the fields before, and says how many they are.
    #[cycle(walk)]
    pub fn rows<K: Sink>(
        &self,
        level: u8,
        spans: [Span; 5],
        left: NodeId,
        right: NodeId,
        pending: &mut Pending,
        out: &mut K,
    ) -> Result<u128, Stop>
        requires level { level ≤ 5 }
        requires left { level_of self.now.store.now left.0 ≡ drop level stated }
        requires right { level_of self.now.store.now right.0 ≡ drop level stated }
        ensures rows { (rows : List Statement) → AreRowsOf self.now.store.now level left.0 right.0 rows →
            PutsUntil K.written K.faults out.old out.new pending.old pending.new (rows_text (take level (intervals_of spans)) rows) result }
        ensures count { (rows : List Statement) → AreRowsOf self.now.store.now level left.0 right.0 rows → IfOk result (λ n. n ≡ length rows) }
        ensures few { IfOk result (λ n. n ≤ headers_from level) }
    {
        if level == 5 {
            return self.row(spans, left, right, pending, out);
        }
        self.store.same_answers();
        let parts = joint(self.alloc, self.store, left, right)?;
        let rows = self.parts(level, spans, &parts, pending, out)?;
        Ok(rows)
    }

    /// Puts the row of two leaves.
    fn row<K: Sink>(
        &self,
        spans: [Span; 5],
        left: NodeId,
        right: NodeId,
        pending: &mut Pending,
        out: &mut K,
    ) -> Result<u128, Stop>
        requires left { level_of self.now.store.now left.0 ≡ [] }
        requires right { level_of self.now.store.now right.0 ≡ [] }
        ensures rows { (rows : List Statement) → AreRowsOf self.now.store.now 5 left.0 right.0 rows →
            PutsUntil K.written K.faults out.old out.new pending.old pending.new (rows_text (take 5 (intervals_of spans)) rows) result }
        ensures count { (rows : List Statement) → AreRowsOf self.now.store.now 5 left.0 right.0 rows → IfOk result (λ n. n ≡ length rows) }
        ensures few { IfOk result (λ n. n ≤ 1) }
    {
        let row = Row {
            spans,
            rule: number(self.store.decision(left)),
            entry: number(self.store.decision(right)),
        };
        put_row(&row, pending, out)?;
        Ok(1)
    }

    /// Puts the rows of all parts of a field.
    #[cycle(walk)]
    fn parts<K: Sink>(
        &self,
        level: u8,
        spans: [Span; 5],
        parts: &[JointEdge],
        pending: &mut Pending,
        out: &mut K,
    ) -> Result<u128, Stop>
        requires level { level < 5 }
        requires full { AreFull (greatest_of level) (map to_left parts.now) }
        requires left { LeadTo self.now.store.now (drop (suc level) stated) (map to_left parts.now) }
        requires right { LeadTo self.now.store.now (drop (suc level) stated) (map to_right parts.now) }
        ensures rows { (groups : List (Group Statement)) → ArePaired self.now.store.now (suc level) groups parts.now →
            PutsUntil K.written K.faults out.old out.new pending.old pending.new (flat_map (group_text (take level (intervals_of spans))) groups) result }
        ensures count { (groups : List (Group Statement)) → ArePaired self.now.store.now (suc level) groups parts.now →
            IfOk result (λ n. n ≡ length (rows_of put_interval groups)) }
        ensures few { IfOk result (λ n. n ≤ headers_from level) }
    {
        let mut rows = 0;
        let mut lo = 0;
        for part in parts {
            let mut spans = spans;
            spans[usize::from(level)] = Span { lo, hi: part.hi };
            rows += self.rows(level + 1, spans, part.left, part.right, pending, out)?;
            lo = part.hi.saturating_add(1);
        }
        Ok(rows)
    }
}
