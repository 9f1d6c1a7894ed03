//! Prefixes of a field's values.
ghost use Rattle.std.specs.Prelude.{◌≡◌};
ghost use Rattle.field_boxes.specs.Headline.Prefix.{FitsWidth, prefix_holds};
ghost use Rattle.field_boxes.specs.Prefix.{prefix_interval};
ghost use Rattle.field_boxes.specs.Spans.{interval_of};

use crate::span::Span;

/// The values of a field that agree with `value` in their highest `len` bits.
///
/// A prefix fits a width if it has at most that many bits and the bits of `value` below it are 0.
#[derive(Clone, Copy, Debug, PartialEq, Eq)]
pub struct Prefix {
    pub value: u32,
    pub len: u8,
}

impl Prefix {
    /// Whether the prefix of a field of `width` bits holds the value.
    pub fn holds(&self, width: u8, value: u32) -> bool
        requires { FitsWidth width self.now }
        ensures { result ≡ prefix_holds width self.now value }
    {
        let free = width - self.len;
        u64::from(value) >> free == u64::from(self.value) >> free
    }

    /// The interval of the values that the prefix of a field of `width` bits holds.
    pub fn span(&self, width: u8) -> Span
        requires { FitsWidth width self.now }
        ensures { interval_of result ≡ prefix_interval width self.now }
    {
        let size = 1u64 << (width - self.len);
        let hi = u64::from(self.value) + (size - 1);
        Span {
            lo: self.value,
            hi: hi as u32,
        }
    }
}
