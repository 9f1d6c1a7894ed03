//! Whether one diagram decides as asked wherever another one answers an index.
//! It is for users of the library: no command asks.
ghost use Rattle.std.specs.Prelude.{◌≡◌, ◌≢◌, IfOk};
ghost use Rattle.std.specs.Bool.{OnTrue, OnFalse};
ghost use Rattle.field_boxes.specs.Headline.Fields.{stated};
ghost use Rattle.field_boxes.specs.Boxes.{box_of, EachHeader, SomeHeader};
ghost use Rattle.node_store.specs.Diagram.{level_of, answer};

use crate::agreed::Agreed;
use crate::pair::Pair;
use crate::question::Question;
use field_boxes::Span;
use node_store::{NodeId, Part, Store, stated_order};
use razor_limits::Memory;
use std::alloc::Global;

/// Whether every header of the box at which `which` answers `index` has the answer `decision` at `answers`.
///
/// A span may reach past its field, where no header lies. The walk goes over pairs of nodes, and over
/// the parts of a field inside the box's span. Each pair is worked out once, and the first one that
/// doesn't agree ends the walk. The memory is that of the pairs that agree.
pub fn agrees_where(
    alloc: Global,
    store: &Store,
    spans: &[Span; 5],
    which: NodeId,
    index: u32,
    answers: NodeId,
    decision: u32,
) -> Result<bool, Memory>
    requires which { level_of store.now which.0 ≡ stated }
    requires answers { level_of store.now answers.0 ≡ stated }
    ensures yes { IfOk result (λ yes. OnTrue yes (EachHeader (box_of spans.now) (λ header.
        answer store.now which.0 header ≡ index → answer store.now answers.0 header ≡ decision))) }
    ensures no { IfOk result (λ yes. OnFalse yes (SomeHeader (box_of spans.now) (λ header.
        (answer store.now which.0 header ≡ index) × (answer store.now answers.0 header ≢ decision)))) }
{
    let question = Question {
        spans: *spans,
        index,
        decision,
    };
    let mut agreed = Agreed::new(alloc);
    let agree = question.pair(store, &mut agreed, &stated_order(), Pair { which, answers })?;
    Ok(agree)
}

impl Question {
    ghost use Rattle.std.specs.Prelude.{◌≡◌, ◌≤◌, ℕ, [], map, IfOk, IsTrue};
    ghost use Rattle.std.specs.Bool.{OnTrue, OnFalse};
    ghost use Rattle.field_boxes.specs.Boxes.{EachValue, SomeValue};
    ghost use Rattle.node_store.specs.Levels.{IsLevel};
    ghost use Rattle.node_store.specs.Edges.{AreFull, child_of};
    ghost use Rattle.node_store.specs.Split.{to_left, to_right};
    ghost use Rattle.node_store.specs.Store.{LeadTo};
    ghost use Rattle.fdd_ops.specs.Agreement.{AreAt, Agree, Differ};
    ghost use Rattle.fdd_ops.specs.Agreed.{is_kept, AreAgreed, KeepsPairs};

    /// Whether a pair of a level agrees: known from an earlier turn, or worked out, and kept if it does.
    #[cycle(walk)]
    fn pair(
        &self,
        store: &Store,
        agreed: &mut Agreed,
        level: &[u8],
        pair: Pair,
    ) -> Result<bool, Memory>
        requires agreed { AreAgreed self.now store.now agreed.old }
        requires level { IsLevel level.now }
        requires pair { AreAt store.now level.now pair }
        ensures yes { IfOk result (λ yes. OnTrue yes (Agree self.now store.now pair.which.0 pair.answers.0)) }
        ensures no { IfOk result (λ yes. OnFalse yes (Differ self.now store.now pair.which.0 pair.answers.0)) }
        ensures kept { IfOk result (λ yes. OnTrue yes (IsTrue (is_kept agreed.new pair))) }
        ensures earlier { KeepsPairs agreed.old agreed.new }
        ensures agreed { AreAgreed self.now store.now agreed.new }
    {
        if agreed.has(pair) {
            return Ok(true);
        }
        if !self.worked_out(store, agreed, level, pair)? {
            return Ok(false);
        }
        agreed.keep(pair)?;
        Ok(true)
    }

    /// Whether two leaves agree.
    fn leaf(&self, store: &Store, pair: Pair) -> bool
        requires { AreAt store.now [] pair }
        ensures yes { OnTrue result (Agree self.now store.now pair.which.0 pair.answers.0) }
        ensures no { OnFalse result (Differ self.now store.now pair.which.0 pair.answers.0) }
    {
        let index = store.decision(pair.which).unwrap_or(0);
        let decision = store.decision(pair.answers).unwrap_or(0);
        index != self.index || decision == self.decision
    }

    /// Whether a pair agrees: two leaves, or two nodes whose parts inside the span of their field do.
    #[cycle(walk)]
    fn worked_out(
        &self,
        store: &Store,
        agreed: &mut Agreed,
        level: &[u8],
        pair: Pair,
    ) -> Result<bool, Memory>
        requires agreed { AreAgreed self.now store.now agreed.old }
        requires level { IsLevel level.now }
        requires pair { AreAt store.now level.now pair }
        ensures yes { IfOk result (λ yes. OnTrue yes (Agree self.now store.now pair.which.0 pair.answers.0)) }
        ensures no { IfOk result (λ yes. OnFalse yes (Differ self.now store.now pair.which.0 pair.answers.0)) }
        ensures earlier { KeepsPairs agreed.old agreed.new }
        ensures agreed { AreAgreed self.now store.now agreed.new }
    {
        if level.is_empty() {
            return Ok(self.leaf(store, pair));
        }
        let parts = store.split(pair.which, pair.answers)?;
        let span = self.span(level);
        let agree = self.parts(store, agreed, &level[1..], span, parts.as_slice())?;
        Ok(agree)
    }

    /// Whether all parts that the span meets agree; their nodes stand at the level.
    #[cycle(walk)]
    fn parts(
        &self,
        store: &Store,
        agreed: &mut Agreed,
        level: &[u8],
        span: Span,
        parts: &[Part],
    ) -> Result<bool, Memory>
        requires agreed { AreAgreed self.now store.now agreed.old }
        requires level { IsLevel level.now }
        requires left { LeadTo store.now level.now (map to_left parts.now) }
        requires right { LeadTo store.now level.now (map to_right parts.now) }
        ensures yes { (greatest : ℕ) → AreFull greatest (map to_left parts.now) → IfOk result (λ yes. OnTrue yes (EachValue greatest span (λ v.
            Agree self.now store.now (child_of (map to_left parts.now) v) (child_of (map to_right parts.now) v)))) }
        ensures no { (greatest : ℕ) → AreFull greatest (map to_left parts.now) → IfOk result (λ yes. OnFalse yes (SomeValue greatest span (λ v.
            Differ self.now store.now (child_of (map to_left parts.now) v) (child_of (map to_right parts.now) v)))) }
        ensures earlier { KeepsPairs agreed.old agreed.new }
        ensures agreed { AreAgreed self.now store.now agreed.new }
    {
        for part in parts {
            if !self.part(store, agreed, level, span, *part)? {
                return Ok(false);
            }
            if span.hi <= part.hi {
                return Ok(true);
            }
        }
        Ok(true)
    }

    /// Whether a part ends below the span or agrees.
    #[cycle(walk)]
    fn part(
        &self,
        store: &Store,
        agreed: &mut Agreed,
        level: &[u8],
        span: Span,
        part: Part,
    ) -> Result<bool, Memory>
        requires agreed { AreAgreed self.now store.now agreed.old }
        requires level { IsLevel level.now }
        requires left { level_of store.now part.left.0 ≡ level.now }
        requires right { level_of store.now part.right.0 ≡ level.now }
        ensures yes { IfOk result (λ yes. OnTrue yes (span.lo ≤ part.hi → Agree self.now store.now part.left.0 part.right.0)) }
        ensures no { IfOk result (λ yes. OnFalse yes ((span.lo ≤ part.hi) × Differ self.now store.now part.left.0 part.right.0)) }
        ensures earlier { KeepsPairs agreed.old agreed.new }
        ensures agreed { AreAgreed self.now store.now agreed.new }
    {
        if part.hi < span.lo {
            return Ok(true);
        }
        let pair = Pair {
            which: part.left,
            answers: part.right,
        };
        let agree = self.pair(store, agreed, level, pair)?;
        Ok(agree)
    }
}
