//! The five fields: their widths and their greatest values.
ghost use Rattle.std.specs.Prelude.{◌≡◌, ◌<◌};
ghost use Rattle.field_boxes.specs.Headline.Fields.{width};
ghost use Rattle.field_boxes.specs.Fields.{greatest_of};

use razor_limits::limits::{GREATEST_PORT, GREATEST_PROTOCOL};

/// The greatest value of the field.
pub fn greatest(field: usize) -> u32
    requires { field < 5 }
    ensures { result ≡ greatest_of field }
{
    match field {
        0 | 1 => u32::MAX,
        2 | 3 => GREATEST_PORT,
        _ => GREATEST_PROTOCOL,
    }
}

/// The bits of the field.
pub fn width(field: usize) -> u8
    requires { field < 5 }
    ensures { result ≡ width field }
{
    match field {
        0 | 1 => 32,
        2 | 3 => 16,
        _ => 8,
    }
}
