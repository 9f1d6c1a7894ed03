//! The longest prefix that holds some spans.
ghost use Rattle.std.specs.Prelude.{◌≡◌, ◌≤◌, ◌<◌, ◌-◌, ◌^◌, true};
ghost use Rattle.field_boxes.specs.Headline.Prefix.{FitsWidth, prefix_holds};
ghost use Rattle.field_boxes.specs.Spans.{intervals_of};
ghost use Rattle.field_boxes.specs.Unions.{RiseApart};
ghost use Rattle.range_prefix.specs.Shortest.{shortest_below, shortest_cover};
ghost use Rattle.range_prefix.specs.Spans.{union_of};

use field_boxes::{Prefix, Span};

/// A prefix of a field of `width` bits that holds all values of the spans: the longest one, and the whole
/// field where there are no spans.
pub(crate) fn enclosing(spans: &[Span], width: u8) -> Prefix
    requires wide { width ≤ 32 }
    requires apart { RiseApart 0 (2 ^ width - 1) (intervals_of spans.now) }
    ensures fits { FitsWidth width result }
    ensures cover { shortest_below width (union_of spans.now) result ≡ shortest_cover width (union_of spans.now) }
{
    let (Some(first), Some(last)) = (spans.first(), spans.last()) else {
        return Prefix { value: 0, len: 0 };
    };
    longest_of_both(first.lo, last.hi, width)
}

/// The longest prefix of a field of `width` bits that holds both values.
fn longest_of_both(lo: u32, hi: u32, width: u8) -> Prefix
    requires wide { width ≤ 32 }
    requires lo { lo < 2 ^ width }
    requires hi { hi < 2 ^ width }
    ensures fits { FitsWidth width result }
    ensures lo { prefix_holds width result lo ≡ true }
    ensures hi { prefix_holds width result hi ≡ true }
{
    let free = 32 - (lo ^ hi).leading_zeros();
    let size = 1u64 << free;
    let value = u64::from(lo) / size * size;
    Prefix {
        value: value as u32,
        len: width - free as u8,
    }
}
