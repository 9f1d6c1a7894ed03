//! The shortest covers of spans by prefixes.
ghost use Rattle.std.specs.Prelude.{◌≡◌, ◌≤◌, ◌++◌, IfOk, OnErr, OnOk, ◌<◌, ◌-◌, ◌^◌};
ghost use Rattle.field_boxes.specs.Headline.Prefix.{FitsWidth};
ghost use Rattle.field_boxes.specs.Spans.{intervals_of};
ghost use Rattle.field_boxes.specs.Unions.{RiseApart};
ghost use Rattle.range_prefix.specs.Cover.{IsShortestCover};
ghost use Rattle.range_prefix.specs.Fronts.{AddsFront, IsFront};
ghost use Rattle.range_prefix.specs.Shortest.{shortest_below, shortest_cover};
ghost use Rattle.range_prefix.specs.Spans.{AreApart, union_of, values_of};

use crate::enclosing::enclosing;
use crate::share::Share;
use field_boxes::{Prefix, Span};
use razor_limits::Memory;
use std::alloc::Global;

/// The fewest prefixes of a field of `width` bits that hold exactly the span's values, in rising order.
///
/// This is [`cover_all`] of one span.
pub fn cover(alloc: Global, span: Span, width: u8) -> Result<Vec<Prefix>, Memory>
    requires wide { width ≤ 32 }
    requires inside { span.hi < 2 ^ width }
    ensures shortest { IfOk result (λ prefixes. IsShortestCover width (values_of span) prefixes.items) }
    ensures value { IfOk result (λ prefixes. prefixes.items ≡ shortest_cover width (values_of span)) }
{
    cover_all(alloc, &[span], width)
}

/// The fewest prefixes of a field of `width` bits that hold exactly the values of the spans, in rising order.
///
/// No two of them have a value in common, and there are as many as [`count_all`](crate::count_all)
/// says. The error comes where memory was refused;
/// nothing is kept then. The turns are of the order of the spans times the width.
pub fn cover_all(alloc: Global, spans: &[Span], width: u8) -> Result<Vec<Prefix>, Memory>
    requires wide { width ≤ 32 }
    requires apart { RiseApart 0 (2 ^ width - 1) (intervals_of spans.now) }
    ensures shortest { IfOk result (λ prefixes. IsShortestCover width (union_of spans.now) prefixes.items) }
    ensures value { IfOk result (λ prefixes. prefixes.items ≡ shortest_cover width (union_of spans.now)) }
{
    let mut prefixes = Vec::new(alloc);
    cover_all_into(spans, width, &mut prefixes)?;
    Ok(prefixes)
}

/// The same in place of what the vector holds, so that its room serves again.
///
/// Where memory was refused, the vector holds the first prefixes of the cover, maybe none.
pub fn cover_all_into(spans: &[Span], width: u8, prefixes: &mut Vec<Prefix>) -> Result<(), Memory>
    requires wide { width ≤ 32 }
    requires apart { RiseApart 0 (2 ^ width - 1) (intervals_of spans.now) }
    ensures shortest { OnOk result (IsShortestCover width (union_of spans.now) prefixes.new.items) }
    ensures value { OnOk result (prefixes.new.items ≡ shortest_cover width (union_of spans.now)) }
    ensures front { OnErr result (IsFront prefixes.new.items (shortest_cover width (union_of spans.now))) }
{
    let block = enclosing(spans, width);
    prefixes.clear();
    cover_below(spans, width, block, prefixes)
}

/// Adds the prefixes for the spans' values among those of the prefix.
fn cover_below(
    spans: &[Span],
    width: u8,
    prefix: Prefix,
    prefixes: &mut Vec<Prefix>,
) -> Result<(), Memory>
    requires fits { FitsWidth width prefix }
    requires apart { AreApart 0 spans.now }
    ensures added { OnOk result (prefixes.new.items ≡ prefixes.old.items ++ shortest_below width (union_of spans.now) prefix) }
    ensures front { OnErr result (AddsFront prefixes.old.items prefixes.new.items (shortest_below width (union_of spans.now) prefix)) }
{
    match Share::of(spans, width, prefix) {
        Share::Nothing => {}
        Share::Whole => prefixes.push(prefix)?,
        Share::Part(halved) => {
            cover_below(halved.spans, width, halved.low, prefixes)?;
            cover_below(halved.spans, width, halved.high, prefixes)?;
        }
    }
    Ok(())
}
