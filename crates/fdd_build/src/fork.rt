//! A node that leads elsewhere in one set of its field.
ghost use Rattle.std.specs.Prelude.{◌≡◌, ◌≤◌, ℕ, suc, List, ◌∷◌, nat_lt, if◌then◌else◌, IfOk};
ghost use Rattle.node_store.specs.Levels.{HasField, next, top_of};
ghost use Rattle.field_boxes.specs.Headline.Classifier.{union_holds};
ghost use Rattle.field_boxes.specs.Spans.{intervals_of};
ghost use Rattle.field_boxes.specs.Unions.{RiseApart};
ghost use Rattle.node_store.specs.Diagram.{Node, level_of, answer};
ghost use Rattle.node_store.specs.Edges.{AreFull, child_of};
ghost use Rattle.fdd_build.specs.Sets.{FillBelow};
ghost use Rattle.node_store.specs.Store.{Grows, LeadTo};

use crate::filling::{Edges, Filling};
use field_boxes::{Span, greatest};
use node_store::{NodeId, Store};
use razor_limits::Memory;
use std::alloc::Global;

/// The node of the level that leads inside in the set and outside elsewhere.
pub(crate) fn forked(
    alloc: Global,
    store: &mut Store,
    level: &[u8],
    set: &[Span],
    inside: NodeId,
    outside: NodeId,
) -> Result<NodeId, Memory>
    requires field { HasField level.now }
    requires rise { RiseApart 0 (top_of level.now) (intervals_of set.now) }
    requires inside { level_of store.old inside.0 ≡ next level.now }
    requires outside { level_of store.old outside.0 ≡ next level.now }
    ensures level { IfOk result (λ id. level_of store.new id.0 ≡ level.now) }
    ensures answers { IfOk result (λ id. (v : ℕ) (values : List ℕ) → v ≤ top_of level.now →
        answer store.new id.0 (v ∷ values) ≡
        answer store.old (if union_holds v (intervals_of set.now) then inside.0 else outside.0) values) }
    ensures grows { Grows store.old store.new }
{
    let edges = edges(alloc, set, greatest(usize::from(level[0])), inside, outside)?;
    let id = store.make(level, edges.as_slice())?;
    Ok(id)
}

/// The edges of that node.
fn edges(
    alloc: Global,
    set: &[Span],
    greatest: u32,
    inside: NodeId,
    outside: NodeId,
) -> Result<Edges, Memory>
    requires { RiseApart 0 greatest (intervals_of set.now) }
    ensures full { IfOk result (λ edges. AreFull greatest edges.items) }
    ensures children { IfOk result (λ edges. (nodes : List Node) (level : List ℕ) →
        level_of nodes inside.0 ≡ level → level_of nodes outside.0 ≡ level → LeadTo nodes level edges.items) }
    ensures leads { IfOk result (λ edges. (v : ℕ) → v ≤ greatest →
        child_of edges.items v ≡ (if union_holds v (intervals_of set.now) then inside.0 else outside.0)) }
{
    let mut filling = Filling::new(alloc);
    for span in set {
        filling.take(*span, inside, outside)?;
    }
    let edges = finished(filling, greatest, outside)?;
    Ok(edges)
}

/// The edges, where the values that aren't filled lead outside.
fn finished(filling: Filling, greatest: u32, outside: NodeId) -> Result<Edges, Memory>
    requires full { FillBelow filling.filled filling.edges.items }
    requires within { filling.filled ≤ suc greatest }
    ensures full { IfOk result (λ edges. AreFull greatest edges.items) }
    ensures children { IfOk result (λ edges. (nodes : List Node) (level : List ℕ) →
        level_of nodes outside.0 ≡ level → LeadTo nodes level filling.edges.items → LeadTo nodes level edges.items) }
    ensures leads { IfOk result (λ edges. (v : ℕ) → v ≤ greatest →
        child_of edges.items v ≡ (if nat_lt v filling.filled then child_of filling.edges.items v else outside.0)) }
{
    let mut filling = filling;
    if filling.filled <= u64::from(greatest) {
        filling.lead(greatest, outside)?;
    }
    let Filling { edges, filled: _ } = filling;
    Ok(edges)
}
