//! The rows of a prefix list, and their order.
ghost use Rattle.std.specs.Prelude.{◌≡◌, ◌<◌, ◌+◌, ◌-◌, ◌*◌, ◌^◌, IsPermutation};
ghost use Rattle.std.specs.List.Sorted.{IsNonDecreasingBy};
ghost use Rattle.prefix_min.specs.Order.{TiesRise};

use field_boxes::Prefix;

/// A row of a prefix list: the values of the prefix that no earlier row holds have the label.
#[derive(Clone, Copy, Debug, PartialEq, Eq)]
pub struct PrefixRow {
    pub prefix: Prefix,
    pub label: u32,
}

/// One number by which the longest rows come first, equal lengths by rising value.
#[inline(always)]
fn rank(row: &PrefixRow) -> u64
    ensures rank { result ≡ (255 - row.now.prefix.len) * 2 ^ 32 + row.now.prefix.value }
    ensures value { row.now.prefix.value < 2 ^ 32 }
{
    let Prefix { value, len } = row.prefix;
    let short = u64::from(u8::MAX - len);
    (short << 32) + u64::from(value)
}

/// Puts the rows into order: the longest first, equal lengths by rising value.
pub fn sort(rows: &mut Vec<PrefixRow>)
    ensures same { IsPermutation rows.old.items rows.new.items }
    ensures longest_first { IsNonDecreasingBy (λ r. 255 - r.prefix.len) rows.new.items }
    ensures values_rise { TiesRise rows.new.items }
{
    rows.sort_unstable_by_key(rank);
}
