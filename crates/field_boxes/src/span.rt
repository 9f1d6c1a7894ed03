//! Intervals of values.
ghost use Rattle.std.specs.Prelude.{◌≤◌};

/// The values from `lo` to `hi`, both included.
#[derive(Clone, Copy, Debug, PartialEq, Eq)]
pub struct Span {
    pub lo: u32,
    pub hi: u32,
    pub ghost ordered: { lo ≤ hi },
}

impl Span {
    ghost use Rattle.std.specs.Prelude.{◌≡◌, ◌<◌, ◌↔◌, IsNone, IfSome};
    ghost use Rattle.field_boxes.specs.Headline.Classifier.{interval_holds};
    ghost use Rattle.field_boxes.specs.Spans.{interval_of};

    /// The span with these ends; none where they are the wrong way round.
    pub fn new(lo: u32, hi: u32) -> Option<Span>
        ensures none { IsNone result ↔ (hi < lo) }
        ensures ends { IfSome result (λ s. (s.lo ≡ lo) × (s.hi ≡ hi)) }
    {
        if lo <= hi {
            Some(Span { lo, hi })
        } else {
            None
        }
    }

    /// Whether the span has the value.
    pub fn holds(&self, value: u32) -> bool
        ensures { result ≡ interval_holds value (interval_of self.now) }
    {
        self.lo <= value && value <= self.hi
    }
}
