//! Where the fields lie in a key.
ghost use Rattle.std.specs.Prelude.{◌≤◌};

/// How many bits of a key stand below those of a field, and how many are the field's.
#[derive(Clone, Copy, Debug, PartialEq, Eq)]
pub struct FieldPlace {
    pub low: u8,
    pub width: u8,
    pub ghost within: { low ≤ 72 },
    pub ghost wide: { width ≤ 32 },
}

/// The places of the five fields, that of the source address first.
pub const FIELD_PLACES: [FieldPlace; 5] = [
    FieldPlace { low: 72, width: 32 },
    FieldPlace { low: 40, width: 32 },
    FieldPlace { low: 24, width: 16 },
    FieldPlace { low: 8, width: 16 },
    FieldPlace { low: 0, width: 8 },
];

impl FieldPlace {
    ghost use Rattle.std.specs.Prelude.{◌≡◌, ◌<◌};
    ghost use Rattle.field_boxes.specs.Headline.Fields.{width};
    ghost use Rattle.ternary_words.specs.Word.{low_bit};

    /// The place of the field.
    pub fn of(field: usize) -> FieldPlace
        requires { field < 5 }
        ensures low { result.low ≡ low_bit field }
        ensures width { result.width ≡ width field }
    {
        match field {
            0 => FIELD_PLACES[0],
            1 => FIELD_PLACES[1],
            2 => FIELD_PLACES[2],
            3 => FIELD_PLACES[3],
            _ => FIELD_PLACES[4],
        }
    }
}
