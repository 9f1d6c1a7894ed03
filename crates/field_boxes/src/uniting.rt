//! Unions of spans, one span after another.
ghost use Rattle.std.specs.Prelude.{◌≡◌, ◌≤◌, ◌<◌, ◌+◌, ℕ, ◌||◌, List, [], ◌∷◌, ◌++◌, length};
ghost use Rattle.razor_limits.specs.declared.limits.TheConstants.{GREATEST_PORT, MOST_RANGES};
ghost use Rattle.field_boxes.specs.Headline.Classifier.{Interval, interval_holds, union_holds};
ghost use Rattle.field_boxes.specs.Spans.{interval_of};
ghost use Rattle.field_boxes.specs.Unions.{RiseApart};

use crate::span::Span;
use crate::span_list::SpanList;

/// The spans of a list up to some place, united with one more span.
struct Uniting {
    /// All but the last of them.
    lower: SpanList,
    /// The last of them, which may still grow.
    last: Span,
}

/// The list united with one more span; spans that overlap or touch become one.
pub(crate) fn united(list: &SpanList, span: Span) -> SpanList
    requires room { length list.now < MOST_RANGES }
    requires rise { RiseApart 0 GREATEST_PORT list.now }
    requires within { span.hi ≤ GREATEST_PORT }
    ensures rise { RiseApart 0 GREATEST_PORT result }
    ensures some { 1 ≤ length result }
    ensures few { length result ≤ length list.now + 1 }
    ensures same { (v : ℕ) → union_holds v result ≡ (union_holds v list.now || interval_holds v (interval_of span)) }
{
    let mut uniting = Uniting {
        lower: SpanList::new(),
        last: span,
    };
    for next in list.as_slice() {
        uniting.take(*next);
    }
    let Uniting { mut lower, last } = uniting;
    lower.push(last);
    lower
}

impl Uniting {
    /// Takes in the next span of the list, which begins after all spans of `lower`.
    fn take(&mut self, next: Span)
        requires room { length self.old.lower < MOST_RANGES }
        requires last { self.old.last.hi ≤ GREATEST_PORT }
        requires next { next.hi ≤ GREATEST_PORT }
        ensures within { self.new.last.hi ≤ GREATEST_PORT }
        ensures few { length self.new.lower ≤ length self.old.lower + 1 }
        ensures rise { (rest : List Interval) → RiseApart 0 GREATEST_PORT (self.old.lower ++ interval_of self.old.last ∷ []) →
            RiseApart 0 GREATEST_PORT (self.old.lower ++ interval_of next ∷ rest) →
            RiseApart 0 GREATEST_PORT (self.new.lower ++ interval_of self.new.last ∷ []) × RiseApart 0 GREATEST_PORT (self.new.lower ++ rest) }
        ensures same { (v : ℕ) → union_holds v (self.new.lower ++ interval_of self.new.last ∷ []) ≡
            (union_holds v (self.old.lower ++ interval_of self.old.last ∷ []) || interval_holds v (interval_of next)) }
    {
        if next.hi + 1 < self.last.lo {
            self.lower.push(next);
            return;
        }
        if self.last.hi + 1 < next.lo {
            self.lower.push(self.last);
            self.last = next;
            return;
        }
        self.last = Span {
            lo: self.last.lo.min(next.lo),
            hi: self.last.hi.max(next.hi),
        };
    }
}
