//! Parts of the field: the values below one prefix.
ghost use Rattle.std.specs.Prelude.{◌≡◌, ◌≤◌, ◌<◌, ◌+◌, ◌-◌, ◌%◌, ◌^◌};
ghost use Rattle.prefix_min.specs.Growth.{IsAbout};

/// The values that differ from `low` in the lowest `bits` bits only.
#[derive(Clone, Copy)]
pub struct FieldPart {
    pub low: u32,
    pub bits: u8,
}

/// The first value above the part.
pub fn end(part: FieldPart) -> u64
    requires { part.bits ≤ 32 }
    ensures { result ≡ part.low + 2 ^ part.bits }
{
    u64::from(part.low) + (1u64 << part.bits)
}

/// The greatest value of the part of `bits` bits from `low` on.
pub fn top(bits: u8, low: u32) -> u32
    requires wide { bits ≤ 32 }
    requires within { low + 2 ^ bits ≤ 2 ^ 32 }
    ensures { result + 1 ≡ low + 2 ^ bits }
{
    let size = 1u64 << bits;
    (u64::from(low) + (size - 1)) as u32
}

/// The least value of the upper half of the part.
pub fn middle(bits: u8, low: u32) -> u32
    requires some { 0 < bits }
    requires wide { bits ≤ 32 }
    requires within { low + 2 ^ bits ≤ 2 ^ 32 }
    ensures { result ≡ low + 2 ^ (bits - 1) }
{
    low + (1u32 << (bits - 1))
}

/// The part of so many bits that holds the value.
pub fn around(low: u32, bits: u8) -> FieldPart
    requires { bits ≤ 32 }
    ensures bits { result.bits ≡ bits }
    ensures low { result.low ≡ low - low % 2 ^ bits }
{
    let low = u64::from(low);
    let over = low % (1u64 << bits);
    FieldPart {
        low: (low - over) as u32,
        bits,
    }
}

/// The part of which this one is a half.
pub fn about(part: FieldPart) -> FieldPart
    requires { part.bits < 32 }
    ensures bits { result.bits ≡ part.bits + 1 }
    ensures low { result.low ≡ part.low - part.low % 2 ^ (part.bits + 1) }
{
    around(part.low, part.bits + 1)
}

/// The greatest part about this one that has no more than `most` bits and ends at `limit` or below.
///
/// It has no more bits than the place of the highest bit in which its low value and the limit differ.
pub fn widest(part: FieldPart, most: u8, limit: u64) -> FieldPart
    requires wide { most ≤ 32 }
    requires less { part.bits ≤ most }
    requires aligned { part.low % 2 ^ part.bits ≡ 0 }
    requires ends { part.low + 2 ^ part.bits ≤ limit }
    ensures { IsAbout part.low part.bits most limit result }
{
    let apart = (u64::from(part.low) ^ limit).leading_zeros();
    let bits = u32::from(most).min(63u32.saturating_sub(apart)) as u8;
    let wide = around(part.low, bits);
    if bits <= part.bits || limit < end(wide) {
        return part;
    }
    wide
}

/// The greatest part of no more than `most` bits that ends with the value.
pub fn ending(value: u32, most: u8) -> FieldPart
    requires { most ≤ 32 }
    ensures { IsAbout value 0 most (value + 1) result }
{
    let last = FieldPart {
        low: value,
        bits: 0,
    };
    widest(last, most, u64::from(value) + 1)
}
