//! The box of a cube.
ghost use Rattle.std.specs.Prelude.{◌≡◌, ◌≤◌, ◌+◌, ◌-◌, ◌<◌, bit_and};
ghost use Rattle.field_boxes.specs.Fields.{greatest_of};
ghost use Rattle.field_boxes.specs.Spans.{interval_of, intervals_of};
ghost use Rattle.partition_check.specs.Boxes.{ends, IsBox};
ghost use Rattle.word_cover.specs.Cubes.{cube_of};
ghost use Rattle.agreement_check.specs.Cubes.{box};

use field_boxes::{Span, greatest};
use ternary_words::{Word, values_of};

/// The values of a field from the least to the greatest one with the value's bits where the mask has a 1.
fn values_in(field: usize, value: u32, mask: u32) -> Span
    requires field { field < 5 }
    requires mask { mask ≤ greatest_of field }
    requires masked { bit_and value mask ≡ value }
    ensures lo { result.lo ≡ value }
    ensures hi { result.hi ≡ value + (greatest_of field - mask) }
    ensures within { result.hi ≤ greatest_of field }
{
    Span {
        lo: value,
        hi: value + (greatest(field) - mask),
    }
}

/// In each field all values from the least to the greatest one of the headers that the word matches.
pub fn box_of(word: &Word) -> [Span; 5]
    ensures is { intervals_of result ≡ box (cube_of word.now) }
    ensures inside { IsBox ends (intervals_of result) }
{
    let values = values_of(word.value);
    let masks = values_of(word.mask);
    [
        values_in(0, values[0], masks[0]),
        values_in(1, values[1], masks[1]),
        values_in(2, values[2], masks[2]),
        values_in(3, values[3], masks[3]),
        values_in(4, values[4], masks[4]),
    ]
}
