//! How much of a prefix some spans have.
ghost use Rattle.std.specs.Prelude.{◌≤◌, ◌<◌, ◌⊎◌};
ghost use Rattle.std.specs.Bool.{OnTrue, OnFalse};
ghost use Rattle.field_boxes.specs.Headline.Prefix.{FitsWidth};
ghost use Rattle.range_prefix.specs.Spans.{AreApart};

use crate::halves::halves;
use crate::reaching::reaching;
use field_boxes::{Prefix, Span};

/// How much of a prefix some spans have.
#[derive(Clone, Copy)]
pub(crate) enum Share<'a> {
    Nothing,
    Whole,
    Part(Halved<'a>),
}

/// A prefix of which the spans have some values and lack others.
#[derive(Clone, Copy)]
pub(crate) struct Halved<'a> {
    /// The spans that don't end before the prefix.
    pub spans: &'a [Span],
    pub low: Prefix,
    pub high: Prefix,
}

impl<'a> Share<'a> {
    ghost use Rattle.range_prefix.specs.Share.{IsShare};

    /// How much of the prefix of a field of `width` bits the spans have.
    pub fn of(spans: &'a [Span], width: u8, prefix: Prefix) -> Share<'a>
        requires fits { FitsWidth width prefix }
        requires apart { AreApart 0 spans.now }
        ensures { IsShare width spans.now prefix result }
    {
        let block = prefix.span(width);
        let left = reaching(spans, block.lo);
        let [first, ..] = left else {
            return Share::Nothing;
        };
        if block.hi < first.lo {
            return Share::Nothing;
        }
        if has_whole(*first, block) {
            return Share::Whole;
        }
        let (low, high) = halves(prefix, width);
        Share::Part(Halved {
            spans: left,
            low,
            high,
        })
    }
}

/// Whether the span has each value of the block.
fn has_whole(span: Span, block: Span) -> bool
    ensures yes { OnTrue result ((span.lo ≤ block.lo) × (block.hi ≤ span.hi)) }
    ensures no { OnFalse result ((block.lo < span.lo) ⊎ (span.hi < block.hi)) }
{
    span.lo <= block.lo && block.hi <= span.hi
}
