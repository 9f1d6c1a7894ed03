//! The two halves of a prefix.
ghost use Rattle.std.specs.Prelude.{◌≡◌, ◌<◌};
ghost use Rattle.field_boxes.specs.Headline.Prefix.{FitsWidth};
ghost use Rattle.range_prefix.specs.Halves.{low_half, high_half};

use field_boxes::Prefix;

/// The two prefixes that are one bit longer, the lower first.
pub(crate) fn halves(prefix: Prefix, width: u8) -> (Prefix, Prefix)
    requires fits { FitsWidth width prefix }
    requires splits { prefix.len < width }
    ensures low { result.0 ≡ low_half prefix }
    ensures high { result.1 ≡ high_half width prefix }
{
    let len = prefix.len + 1;
    let size = 1u32 << (width - len);
    let low = Prefix {
        value: prefix.value,
        len,
    };
    let high = Prefix {
        value: prefix.value + size,
        len,
    };
    (low, high)
}
