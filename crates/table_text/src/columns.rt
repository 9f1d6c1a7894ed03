//! The columns of an entry's line.
ghost use Rattle.std.specs.Prelude.{◌≡◌, ◌==◌, ◌≤◌, bit_and, IfSome, IsTrue};
ghost use Rattle.std.specs.Option.{option_map};
ghost use Rattle.ternary_words.specs.Views.{word_of};
ghost use Rattle.table_text.specs.Columns.{are_within, columns_of, fields_of, hex_number, is_within, masked_of, word_of_fields};
ghost use Rattle.table_text.specs.ColumnViews.{columns_view, fields_view, masked_view};
ghost use Rattle.table_text.specs.ColumnBounds.{AreFields};

use razor_base::limits::{GREATEST_PORT, GREATEST_PROTOCOL};
use ternary_words::Word;
use text_lines::{number_within, parts_at, split_once};

/// The five columns of a line, as they stand, and the decision, where a fifth space stands before it.
#[derive(Clone, Copy)]
pub(crate) struct LineColumns<'a> {
    pub(crate) source: &'a [u8],
    pub(crate) destination: &'a [u8],
    pub(crate) source_port: &'a [u8],
    pub(crate) destination_port: &'a [u8],
    pub(crate) protocol: &'a [u8],
    pub(crate) decision: Option<&'a [u8]>,
}

/// What a field must have, and where.
#[derive(Clone, Copy)]
pub(crate) struct Masked {
    pub(crate) value: u32,
    pub(crate) mask: u32,
}

/// The five fields.
#[derive(Clone, Copy)]
pub(crate) struct Fields {
    pub(crate) source: Masked,
    pub(crate) destination: Masked,
    pub(crate) source_port: Masked,
    pub(crate) destination_port: Masked,
    pub(crate) protocol: Masked,
}

/// The five columns of a line and its decision.
#[tactic(auto, unfolding(crate::specs::Columns::columns_of))]
pub(crate) fn cut_columns(line: &[u8]) -> Option<LineColumns<'_>>
    ensures { option_map columns_view result ≡ columns_of line.now }
{
    let (source, rest) = split_once(line, b' ')?;
    let (destination, rest) = split_once(rest, b' ')?;
    let (source_port, rest) = split_once(rest, b' ')?;
    let (destination_port, rest) = split_once(rest, b' ')?;
    let (protocol, decision) = parts_at(rest, b' ');
    Some(LineColumns {
        source,
        destination,
        source_port,
        destination_port,
        protocol,
        decision,
    })
}

/// The number that so many hexadecimal digits write.
#[tactic(auto, unfolding(crate::specs::Columns::hex_number))]
fn hex_number(text: &[u8], digits: usize, greatest: u32) -> Option<u32>
    ensures value { result ≡ hex_number digits greatest text.now }
    ensures within { IfSome result (λ n. n ≤ greatest) }
{
    if text.len() != digits {
        return None;
    }
    number_within(text, 16, greatest)
}

/// A value, `/`, and a mask.
#[tactic(auto, unfolding(crate::specs::Columns::masked_of))]
fn read_field(text: &[u8], digits: usize, greatest: u32) -> Option<Masked>
    ensures field { option_map masked_view result ≡ masked_of digits greatest text.now }
    ensures within { IfSome result (λ field. (field.value ≤ greatest) × (field.mask ≤ greatest)) }
{
    let (value, mask) = split_once(text, b'/')?;
    let value = hex_number(value, digits, greatest)?;
    let mask = hex_number(mask, digits, greatest)?;
    Some(Masked { value, mask })
}

/// What the five columns say.
#[tactic(auto, unfolding(crate::specs::Columns::fields_of))]
pub(crate) fn read_fields(columns: &LineColumns<'_>) -> Option<Fields>
    ensures fields { option_map fields_view result ≡ fields_of (columns_view columns.now) }
    ensures fits { IfSome result AreFields }
{
    let source = read_field(columns.source, 8, u32::MAX)?;
    let destination = read_field(columns.destination, 8, u32::MAX)?;
    let source_port = read_field(columns.source_port, 4, GREATEST_PORT)?;
    let destination_port = read_field(columns.destination_port, 4, GREATEST_PORT)?;
    let protocol = read_field(columns.protocol, 2, GREATEST_PROTOCOL)?;
    Some(Fields {
        source,
        destination,
        source_port,
        destination_port,
        protocol,
    })
}

/// Whether the value has no bit outside the mask.
fn is_within(field: &Masked) -> bool
    ensures { result ≡ is_within (masked_view field.now) }
{
    field.value & field.mask == field.value
}

/// Whether each value has no bit outside its mask.
pub(crate) fn are_within(fields: &Fields) -> bool
    ensures { result ≡ are_within (fields_view fields.now) }
{
    is_within(&fields.source)
        && is_within(&fields.destination)
        && is_within(&fields.source_port)
        && is_within(&fields.destination_port)
        && is_within(&fields.protocol)
}

/// The word of the five fields.
pub(crate) fn word_of_fields(fields: &Fields) -> Word
    requires fits { AreFields fields.now }
    requires within { IsTrue (are_within (fields_view fields.now)) }
    ensures { word_of result ≡ word_of_fields (fields_view fields.now) }
{
    let values = [
        fields.source.value,
        fields.destination.value,
        fields.source_port.value,
        fields.destination_port.value,
        fields.protocol.value,
    ];
    let masks = [
        fields.source.mask,
        fields.destination.mask,
        fields.source_port.mask,
        fields.destination_port.mask,
        fields.protocol.mask,
    ];
    Word::of_fields(&values, &masks)
}
