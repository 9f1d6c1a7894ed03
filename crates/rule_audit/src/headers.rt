//! Headers that are changed in one field.
ghost use Rattle.std.specs.Prelude.{◌≡◌, ◌<◌, ◌≤◌, slice_set};
ghost use Rattle.field_boxes.specs.Fields.{greatest_of};

use field_boxes::Header;

/// The header with another value of a field.
pub(crate) fn with_value(header: Header, field: usize, value: u32) -> Header
    requires field { field < 5 }
    requires value { value ≤ greatest_of field }
    ensures { result.values ≡ slice_set header.values field value }
{
    let mut values = header.values;
    values[field] = value;
    Header { values }
}
