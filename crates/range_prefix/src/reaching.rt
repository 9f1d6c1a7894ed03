//! The spans that are left from a value on.
ghost use Rattle.std.specs.Prelude.{◌≡◌, ◌≤◌, ℕ, IfSome, slice_get};
ghost use Rattle.range_prefix.specs.Spans.{AreApart, union_of};

use field_boxes::Span;

/// The spans from the first on that doesn't end before the value.
pub(crate) fn reaching(spans: &[Span], value: u32) -> &[Span]
    requires { AreApart 0 spans.now }
    ensures apart { AreApart 0 result.now }
    ensures first { IfSome (slice_get result.now 0) (λ s. value ≤ s.hi) }
    ensures same { (v : ℕ) → value ≤ v → union_of result.now v ≡ union_of spans.now v }
{
    let mut left = spans;
    while let [first, rest @ ..] = left {
        if value <= first.hi {
            return left;
        }
        left = rest;
    }
    left
}
