//! How many prefixes hold the values of some spans.
//! It is for users of the library: no command asks.
ghost use Rattle.std.specs.Prelude.{◌≡◌, ◌≤◌, ◌-◌, ◌*◌, List, length, max, ◌<◌, ◌^◌};
ghost use Rattle.field_boxes.specs.declared.prefix.Prefix.{Prefix};
ghost use Rattle.field_boxes.specs.Spans.{intervals_of};
ghost use Rattle.field_boxes.specs.Unions.{RiseApart};
ghost use Rattle.range_prefix.specs.Cover.{IsShortestCover};
ghost use Rattle.field_boxes.specs.Headline.Prefix.{FitsWidth};
ghost use Rattle.range_prefix.specs.Shortest.{shortest_below, shortest_cover};
ghost use Rattle.range_prefix.specs.Spans.{AreApart, union_of, values_of};

use crate::enclosing::enclosing;
use crate::share::Share;
use field_boxes::{Prefix, Span};

/// How many prefixes of a field of `width` bits hold exactly the span's values, at the least.
///
/// This is [`count_all`] of one span.
pub fn cover_count(span: Span, width: u8) -> u32
    requires wide { width ≤ 32 }
    requires inside { span.hi < 2 ^ width }
    ensures shortest { (prefixes : List Prefix) × IsShortestCover width (values_of span) prefixes × (result ≡ length prefixes) }
    ensures value { result ≡ length (shortest_cover width (values_of span)) }
    ensures few { result ≤ max 1 (2 * width - 2) }
{
    count_all(&[span], width)
}

/// How many prefixes of a field of `width` bits hold exactly the values of the spans, at the least.
///
/// This is the length of [`cover_all`](crate::cover_all). It takes no memory, and turns of the order of the
/// spans times the width.
pub fn count_all(spans: &[Span], width: u8) -> u32
    requires wide { width ≤ 32 }
    requires apart { RiseApart 0 (2 ^ width - 1) (intervals_of spans.now) }
    ensures shortest { (prefixes : List Prefix) × IsShortestCover width (union_of spans.now) prefixes × (result ≡ length prefixes) }
    ensures value { result ≡ length (shortest_cover width (union_of spans.now)) }
    ensures few { result ≤ length spans.now * max 1 (2 * width - 2) }
{
    let block = enclosing(spans, width);
    count_below(spans, width, block)
}

/// How many prefixes the spans' values among those of the prefix need.
fn count_below(spans: &[Span], width: u8, prefix: Prefix) -> u32
    requires fits { FitsWidth width prefix }
    requires apart { AreApart 0 spans.now }
    ensures { result ≡ length (shortest_below width (union_of spans.now) prefix) }
{
    match Share::of(spans, width, prefix) {
        Share::Nothing => 0,
        Share::Whole => 1,
        Share::Part(halved) => {
            count_below(halved.spans, width, halved.low)
                + count_below(halved.spans, width, halved.high)
        }
    }
}
