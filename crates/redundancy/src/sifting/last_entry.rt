//! What is kept of one entry with no field left.
ghost use Rattle.std.specs.Prelude.{◌≡◌, ◌≢◌, ◌<◌, ℕ, [], ◌∷◌, true, false, length, if◌then◌else◌, IfOk};
ghost use Rattle.node_store.specs.Diagram.{answer, level_of};
ghost use Rattle.node_store.specs.Store.{Grows};
ghost use Rattle.redundancy_laws.specs.Rows.{last_row};
ghost use Rattle.redundancy_laws.specs.Contexts.{IsWanted};
ghost use Rattle.redundancy_laws.specs.Sifted.{is_in, AreContexts, IsSifted, contexts_of, node_at, context_at};

use crate::sets::Sets;
use node_store::NodeId;
use razor_limits::Memory;
use redundancy_laws::{Context, Sifted};
use std::alloc::Global;

/// What is kept of one entry with no field left: it stays where some context wants it.
pub(crate) fn last(
    alloc: Global,
    sets: &mut Sets,
    decision: u32,
    contexts: &[Context],
) -> Result<Sifted, Memory>
    requires { AreContexts sets.old [] contexts.now }
    ensures sifted { IfOk result (λ s. IsSifted sets.new [] (last_row decision ∷ []) contexts.now s) }
    ensures grows { Grows sets.old sets.new }
{
    let wanted = wanted(sets, decision, contexts);
    let leaf = sets.leaf(decision)?;
    let after = answered(alloc, contexts, wanted, leaf)?;
    let mut kept = Vec::new(alloc);
    kept.push(wanted)?;
    Ok(Sifted { kept, after })
}

/// Whether some context wants an entry with the decision.
fn wanted(sets: &Sets, decision: u32, contexts: &[Context]) -> bool
    requires { AreContexts sets.now [] contexts.now }
    ensures { IsWanted (contexts_of sets.now contexts.now) result (last_row decision) }
{
    for pair in contexts {
        if wants(sets, decision, *pair) {
            return true;
        }
    }
    false
}

/// Whether no entry before matches, and another decision is answered.
fn wants(sets: &Sets, decision: u32, pair: Context) -> bool
    requires after { level_of sets.now pair.after.0 ≡ [] }
    requires met { level_of sets.now pair.met.0 ≡ [] }
    ensures clear { result ≡ true → is_in sets.now pair.met.0 [] ≡ false }
    ensures other { result ≡ true → answer sets.now pair.after.0 [] ≢ decision }
    ensures same { result ≡ false → is_in sets.now pair.met.0 [] ≡ false → answer sets.now pair.after.0 [] ≡ decision }
{
    sets.last(pair.met) == 0 && sets.last(pair.after) != decision
}

/// What the contexts answer with the entry in front, if it is wanted.
fn answered(
    alloc: Global,
    contexts: &[Context],
    wanted: bool,
    leaf: NodeId,
) -> Result<Vec<NodeId>, Memory>
    ensures count { IfOk result (λ ids. length ids.items ≡ length contexts.now) }
    ensures each { IfOk result (λ ids. (c : ℕ) → c < length contexts.now → node_at ids.items c ≡ (if wanted then leaf else (context_at contexts.now c).after)) }
{
    let mut after = Vec::with_capacity(alloc, contexts.len())?;
    for pair in contexts {
        after.push(if wanted { leaf } else { pair.after })?;
    }
    Ok(after)
}
