//! Headers.
ghost use Rattle.std.specs.Prelude.{ℕ, ◌<◌, ◌^◌, slice_index};
ghost use Rattle.field_boxes.specs.Headline.Fields.{width};

/// One value for each of the five fields, in the stated order.
#[derive(Clone, Copy, Debug, PartialEq, Eq)]
pub struct Header {
    pub values: [u32; 5],
    pub ghost in_fields: { (k : ℕ) → k < 5 → slice_index values k < 2 ^ width k },
}

impl Header {
    ghost use Rattle.std.specs.Prelude.{◌≡◌, ◌↔◌, IsSome, IfSome};
    ghost use Rattle.field_boxes.specs.Headline.Fields.{IsHeader};

    /// The header with these values; none where one is above its field's greatest.
    pub fn new(values: [u32; 5]) -> Option<Header>
        ensures fits { IsSome result ↔ IsHeader values }
        ensures same { IfSome result (λ h. h.values ≡ values) }
    {
        let [_, _, source_port, destination_port, protocol] = values;
        if source_port < 65_536 && destination_port < 65_536 && protocol < 256 {
            Some(Header { values })
        } else {
            None
        }
    }
}
