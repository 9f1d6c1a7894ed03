//! A few spans in place.
ghost use Rattle.razor_limits.specs.declared.limits.TheConstants.{MOST_RANGES};

use crate::span::Span;
use razor_limits::limits::MOST_RANGES;
use std::marker::Model;

/// Up to sixteen spans, which take no memory of their own.
#[derive(Clone, Copy, Debug, PartialEq, Eq)]
pub(crate) struct SpanList {
    spans: [Span; MOST_RANGES],
    count: usize,
}

impl Model for SpanList {
    ghost use Rattle.std.specs.Prelude.{List};
    ghost use Rattle.field_boxes.specs.Headline.Classifier.{Interval};

    ghost Value = { List Interval };

    ghost use Rattle.field_boxes.specs.SpanLists.{IsFilled, listed, fields_of, fields_kept};

    ghost view = { listed };

    ghost invariant = { IsFilled };

    ghost inverse = { fields_of };

    ghost inverse_ok = { fields_kept };
}

impl SpanList {
    ghost use Rattle.std.specs.Prelude.{◌≡◌, ◌<◌, [], ◌∷◌, ◌++◌, length, map};
    ghost use Rattle.field_boxes.specs.Spans.{interval_of};

    /// No spans.
    pub fn new() -> SpanList
        ensures { result ≡ [] }
    {
        SpanList {
            spans: [Span { lo: 0, hi: 0 }; MOST_RANGES],
            count: 0,
        }
    }

    /// The span alone.
    pub fn one(span: Span) -> SpanList
        ensures { result ≡ interval_of span ∷ [] }
    {
        let mut list = SpanList::new();
        list.push(span);
        list
    }

    /// The spans.
    pub fn as_slice(&self) -> &[Span]
        ensures { map interval_of result.now ≡ self.now }
    {
        &self.spans[..self.count]
    }

    /// Puts the span behind the others.
    pub fn push(&mut self, span: Span)
        requires { length self.old < MOST_RANGES }
        ensures { self.new ≡ self.old ++ interval_of span ∷ [] }
    {
        self.spans[self.count] = span;
        self.count += 1;
    }
}
