//! Contexts, and those of the parts of a block: below a span of values, behind other entries, and before answers.
//!
//! Below a span they are the pairs of nodes to which the contexts lead, each once.
ghost use Rattle.std.specs.Prelude.{◌≤◌, length, map, IfOk, OnOk, ◌≡◌, ◌<◌, ℕ};
ghost use Rattle.node_store.specs.Levels.{HasField, top_of, IsLevel};
ghost use Rattle.field_boxes.specs.Spans.{interval_of};
ghost use Rattle.node_store.specs.Split.{to_left};
ghost use Rattle.field_sets.specs.Fill.{Fill};
ghost use Rattle.redundancy_laws.specs.Sifted.{AreContexts, IsBehind, node_at, context_at};
ghost use Rattle.redundancy.specs.Stretches.{AreStretches, AreListed, Gains, context_of};
ghost use Rattle.node_store.specs.Diagram.{level_of};
ghost use Rattle.node_store.specs.Store.{Grows};

mod distinct;

use crate::blocks::Cover;
use crate::contexts::distinct::Distinct;
use crate::sets::Sets;
use field_boxes::Span;
use node_store::{NodeId, Part, Parts};
use razor_limits::Memory;
use redundancy_laws::Context;
use smallvec::SmallVec;
use std::alloc::Global;

/// Contexts: below most runs there are at most three.
pub(crate) type Contexts = SmallVec<Context, 3>;

/// Values of a field that lead to one pair of nodes, and the place of the pair among those that are known.
#[derive(Clone, Copy, Debug, PartialEq, Eq)]
pub(crate) struct Stretch {
    pub span: Span,
    pub place: usize,
}

impl Default for Stretch {
    fn default() -> Self {
        let span = Span { lo: 0, hi: 0 };
        Stretch { span, place: 0 }
    }
}

/// The stretches of one context.
pub(crate) type Stretches = SmallVec<Stretch, 3>;

/// The pairs to which the contexts lead inside a span, each once, and for each context the stretches of the span.
#[derive(Drop)]
pub(crate) struct Below {
    pub pairs: Contexts,
    pub stretches: SmallVec<Stretches, 1>,
}

/// Room to list what lies below a run; what is in it is lost with the next one.
#[derive(Drop)]
pub(crate) struct Room {
    pub parts: Parts,
    pub distinct: Distinct,
}

impl Room {
    /// Room in which nothing was listed.
    pub fn new(alloc: Global) -> Room {
        Room {
            parts: SmallVec::new(alloc),
            distinct: Distinct::new(alloc),
        }
    }
}

/// The pairs to which the contexts of the level lead inside the span.
pub(crate) fn listed_below(
    alloc: Global,
    sets: &Sets,
    room: &mut Room,
    level: &[u8],
    span: Span,
    contexts: &[Context],
) -> Result<Below, Memory>
    requires level { HasField level.now }
    requires inside { span.hi ≤ top_of level.now }
    requires contexts { AreContexts sets.now level.now contexts.now }
    ensures { IfOk result (λ b. AreListed sets.now (interval_of span) contexts.now (length contexts.now) b.pairs.items b.stretches.items) }
{
    let _level = level;
    room.distinct.clear();
    let mut stretches = SmallVec::with_capacity(alloc, contexts.len())?;
    for pair in contexts {
        sets.put_parts(pair.after, pair.met, span, &mut room.parts)?;
        let own = stretches_of(alloc, &mut room.distinct, span, room.parts.as_slice())?;
        stretches.push_reserved(own);
    }
    let pairs = room.distinct.take(alloc)?;
    Ok(Below { pairs, stretches })
}

/// The stretches of one context by the parts of the span, whose pairs come behind the others where they aren't known.
fn stretches_of(
    alloc: Global,
    distinct: &mut Distinct,
    span: Span,
    parts: &[Part],
) -> Result<Stretches, Memory>
    requires { Fill span.lo span.hi (map to_left parts.now) }
    ensures stretches { IfOk result (λ own. AreStretches distinct.new span.lo parts.now own.items) }
    ensures pairs { OnOk result (Gains (map context_of parts.now) (length parts.now) distinct.old distinct.new) }
{
    let mut own = SmallVec::with_capacity(alloc, parts.len())?;
    let mut lo = span.lo;
    for part in parts {
        let place = distinct.place(Context {
            after: part.left,
            met: part.right,
        })?;
        own.push_reserved(Stretch {
            span: Span { lo, hi: part.hi },
            place,
        });
        lo = part.hi.saturating_add(1);
    }
    Ok(own)
}

/// The contexts of a block that stands after entries with this cover.
pub(crate) fn behind_cover(
    alloc: Global,
    sets: &mut Sets,
    cover: Cover<'_>,
    contexts: &[Context],
) -> Result<Contexts, Memory>
    requires within { IsLevel cover.level.now }
    requires cover { level_of sets.old cover.set.0 ≡ cover.level.now }
    requires contexts { AreContexts sets.old cover.level.now contexts.now }
    ensures count { IfOk result (λ pairs. length pairs.items ≡ length contexts.now) }
    ensures level { IfOk result (λ pairs. AreContexts sets.new cover.entry.level.now pairs.items) }
    ensures each { IfOk result (λ pairs. (c : ℕ) → c < length contexts.now → IsBehind sets.new cover.entry.level.now cover.entry.set (context_at contexts.now c) (context_at pairs.items c)) }
    ensures grows { Grows sets.old sets.new }
{
    let mut pairs = SmallVec::with_capacity(alloc, contexts.len())?;
    for pair in contexts {
        let met = sets.union(cover.level, pair.met, cover.set)?;
        pairs.push(Context {
            after: pair.after,
            met,
        })?;
    }
    Ok(pairs)
}

/// The contexts of a block that stands before one with these answers.
pub(crate) fn before_answers(
    alloc: Global,
    contexts: &[Context],
    answers: &[NodeId],
) -> Result<Contexts, Memory>
    requires { length answers.now ≡ length contexts.now }
    ensures count { IfOk result (λ pairs. length pairs.items ≡ length contexts.now) }
    ensures after { IfOk result (λ pairs. (c : ℕ) → c < length contexts.now → (context_at pairs.items c).after ≡ node_at answers.now c) }
    ensures met { IfOk result (λ pairs. (c : ℕ) → c < length contexts.now → (context_at pairs.items c).met ≡ (context_at contexts.now c).met) }
{
    let mut pairs = SmallVec::with_capacity(alloc, contexts.len())?;
    for (place, pair) in contexts.iter().enumerate() {
        pairs.push(Context {
            after: answers[place],
            met: pair.met,
        })?;
    }
    Ok(pairs)
}
