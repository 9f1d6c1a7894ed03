//! What was kept of the first runs of a layer, and where the contexts lead on with them in front.
//!
//! A draft says it run by run; at the layer's end a node is made for each context that leads on as the draft says.
ghost use Rattle.std.specs.Prelude.{◌≡◌, ◌<◌, length, map, All, IfOk, OnOk, ◌≤◌, ℕ};
ghost use Rattle.std.specs.List.{list_any};
ghost use Rattle.redundancy.specs.Drafts.{placed_by, IsChange, IsTakenIn, HaveRoom, leads_of, placed_for, AreChanges};
ghost use Rattle.node_store.specs.Levels.{HasField, next, top_of};
ghost use Rattle.node_store.specs.Diagram.{level_of};
ghost use Rattle.node_store.specs.Store.{Grows};
ghost use Rattle.redundancy_laws.specs.Sifted.{AreContexts, LeadsAs, node_at};

use crate::contexts::{Stretch, Stretches};
use crate::sets::Sets;
use field_sets::Placed;
use node_store::NodeId;
use razor_limits::Memory;
use redundancy_laws::{Context, Sifted};
use smallvec::SmallVec;
use std::alloc::Global;

/// Where one context leads on inside a run: most have a stretch or two.
pub(crate) type PlacedIn = SmallVec<Placed, 2>;

/// Where each context leads on inside a run of which something is kept.
#[derive(Drop)]
pub(crate) struct Change {
    pub placed: SmallVec<PlacedIn, 1>,
}

/// The flags of the rows so far, and the changes that they make, in the order of their spans.
#[derive(Drop)]
pub(crate) struct Draft {
    pub kept: Vec<bool>,
    pub changes: Vec<Change>,
}

/// Takes in what is kept of one run more: where that is nothing, no context leads on otherwise.
pub(crate) fn take_in(
    alloc: Global,
    draft: &mut Draft,
    stretches: &[Stretches],
    inner: &Sifted,
) -> Result<(), Memory>
    requires { HaveRoom (length inner.now.after.items) stretches.now }
    ensures { OnOk result (IsTakenIn draft.old stretches.now inner.now draft.new) }
{
    draft.kept.extend_from_slice(inner.kept.as_slice())?;
    if is_some_kept(inner.kept.as_slice()) {
        let change = change_of(alloc, stretches, inner.after.as_slice())?;
        draft.changes.push(change)?;
    }
    Ok(())
}

/// Whether a flag is true.
pub(crate) fn is_some_kept(kept: &[bool]) -> bool
    ensures { result ≡ list_any (λ b. b) kept.now }
{
    kept.iter().any(|flag| *flag)
}

/// Where each context leads on inside a run: for its stretches what is answered at the places of their pairs.
fn change_of(alloc: Global, stretches: &[Stretches], after: &[NodeId]) -> Result<Change, Memory>
    requires { HaveRoom (length after.now) stretches.now }
    ensures { IfOk result (λ change. IsChange stretches.now after.now change) }
{
    let mut placed = SmallVec::with_capacity(alloc, stretches.len())?;
    for own in stretches {
        let placed_own = placed_of(alloc, own.as_slice(), after)?;
        placed.push_reserved(placed_own);
    }
    Ok(Change { placed })
}

/// The same of one context.
fn placed_of(alloc: Global, stretches: &[Stretch], after: &[NodeId]) -> Result<PlacedIn, Memory>
    requires { All (λ s. s.place < length after.now) stretches.now }
    ensures { IfOk result (λ placed. placed.items ≡ map (placed_by after.now) stretches.now) }
{
    let mut placed = SmallVec::with_capacity(alloc, stretches.len())?;
    for stretch in stretches {
        placed.push_reserved(Placed {
            span: stretch.span,
            to: after[stretch.place],
        });
    }
    Ok(placed)
}

/// A node for each context of the level, which leads on as the changes say.
pub(crate) fn finished(
    alloc: Global,
    sets: &mut Sets,
    level: &[u8],
    contexts: &[Context],
    changes: &[Change],
) -> Result<Vec<NodeId>, Memory>
    requires level { HasField level.now }
    requires contexts { AreContexts sets.old level.now contexts.now }
    requires changes { AreChanges sets.old level.now (length contexts.now) changes.now }
    requires numbers { (c v : ℕ) → c < length contexts.now → v ≤ top_of level.now → level_of sets.old (leads_of sets.old contexts.now changes.now c v) ≡ next level.now }
    ensures count { IfOk result (λ ids. length ids.items ≡ length contexts.now) }
    ensures each { IfOk result (λ ids. (c : ℕ) → c < length contexts.now → LeadsAs sets.new level.now (leads_of sets.old contexts.now changes.now) c (node_at ids.items c)) }
    ensures grows { Grows sets.old sets.new }
{
    let mut after = Vec::with_capacity(alloc, contexts.len())?;
    let mut placed = Vec::new(alloc);
    for (place, pair) in contexts.iter().enumerate() {
        gather(changes, place, &mut placed)?;
        let node = sets.laid(level, pair.after, placed.as_slice())?;
        after.push(node)?;
    }
    Ok(after)
}

/// Puts into the list what the changes say of the context at the place, in their order.
fn gather(changes: &[Change], place: usize, placed: &mut Vec<Placed>) -> Result<(), Memory>
    requires { All (λ change. place < length change.placed.items) changes.now }
    ensures { OnOk result (placed.new.items ≡ placed_for changes.now place) }
{
    placed.clear();
    for change in changes {
        placed.extend_from_slice(change.placed[place].as_slice())?;
    }
    Ok(())
}
