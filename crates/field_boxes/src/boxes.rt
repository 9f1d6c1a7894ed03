//! Sets of values against the spans of a box.
ghost use Rattle.std.specs.Prelude.{◌≡◌, ◌≤◌, ◌<◌, ◌&&◌, ℕ, nat_le, IsTrue, IsFalse, slice_index_or};
ghost use Rattle.std.specs.Bool.{OnTrue, OnFalse};
ghost use Rattle.std.specs.List.{list_any};
ghost use Rattle.field_boxes.specs.Fields.{greatest_of};
ghost use Rattle.field_boxes.specs.Headline.Classifier.{union_holds};
ghost use Rattle.field_boxes.specs.Spans.{intervals_of};
ghost use Rattle.field_boxes.specs.declared.span.Span.{Span};
ghost use Rattle.field_boxes.specs.Unions.{RiseApart};
ghost use Rattle.field_boxes.specs.Boxes.{EachValue, SomeValue};

use crate::span::Span;
use razor_limits::limits::{GREATEST_PORT, GREATEST_PROTOCOL};

/// Whether the set has all values of the span up to the greatest.
pub(crate) fn has_all(set: &[Span], span: Span, greatest: u32) -> bool
    requires rise { RiseApart 0 greatest (intervals_of set.now) }
    requires begins { span.lo ≤ greatest }
    ensures yes { OnTrue result (EachValue greatest span (λ v. IsTrue (union_holds v (intervals_of set.now)))) }
    ensures no { OnFalse result (SomeValue greatest span (λ v. IsFalse (union_holds v (intervals_of set.now)))) }
{
    one_reaches(set, span.lo, span.hi.min(greatest))
}

/// Whether one of the spans reaches from `lo` or below to `hi` or above.
fn one_reaches(spans: &[Span], lo: u32, hi: u32) -> bool
    ensures { result ≡ list_any (λ s. nat_le s.lo lo && nat_le hi s.hi) spans.now }
{
    spans.iter().any(|span| span.lo <= lo && hi <= span.hi)
}

/// Whether the set has some value of the span.
pub(crate) fn has_any(set: &[Span], span: Span, greatest: u32) -> bool
    requires { RiseApart 0 greatest (intervals_of set.now) }
    ensures yes { OnTrue result (SomeValue greatest span (λ v. IsTrue (union_holds v (intervals_of set.now)))) }
    ensures no { OnFalse result (EachValue greatest span (λ v. IsFalse (union_holds v (intervals_of set.now)))) }
{
    one_meets(set, span)
}

/// Whether one of the spans has a value of the span.
fn one_meets(spans: &[Span], with: Span) -> bool
    ensures { result ≡ list_any (λ s. nat_le s.lo with.hi && nat_le with.lo s.hi) spans.now }
{
    spans
        .iter()
        .any(|span| span.lo <= with.hi && with.lo <= span.hi)
}

/// Whether a span begins past its field's greatest value, so that no header lies in the box.
pub(crate) fn begins_past_a_field(spans: &[Span; 5]) -> bool
    ensures yes { OnTrue result ((k : ℕ) × (k < 5) × ((d : Span) → greatest_of k < (slice_index_or spans.now k d).lo)) }
    ensures no { OnFalse result ((k : ℕ) (d : Span) → k < 5 → (slice_index_or spans.now k d).lo ≤ greatest_of k) }
{
    spans[2].lo > GREATEST_PORT || spans[3].lo > GREATEST_PORT || spans[4].lo > GREATEST_PROTOCOL
}
