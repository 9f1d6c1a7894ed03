//! The bits of a header as one number, and back.
ghost use Rattle.std.specs.Prelude.{◌≡◌, ◌+◌, ◌*◌, ◌≤◌, ◌<◌, ◌^◌, ℕ, slice_index};
ghost use Rattle.field_boxes.specs.Headline.Fields.{width};
ghost use Rattle.field_boxes.specs.Headline.Bits.{bits};
ghost use Rattle.ternary_words.specs.Headline.Word.{header_bits};
ghost use Rattle.ternary_words.specs.Word.{field_part, key_of};

/// The number with the bits of `low`, so many as `width`, behind those of `high`.
fn joined(high: u128, width: u8, low: u32) -> u128
    requires room { high < 2 ^ 96 }
    requires width { width ≤ 32 }
    requires small { low < 2 ^ width }
    ensures { result ≡ high * 2 ^ width + low }
{
    high << width | u128::from(low)
}

/// The 104 bits of one value for each field as a number, the first field's highest.
pub fn key(values: [u32; 5]) -> u128
    requires { (k : ℕ) → k < 5 → slice_index values k < 2 ^ width k }
    ensures number { result ≡ key_of values }
    ensures bits { bits 104 result ≡ header_bits values }
    ensures small { result < 2 ^ 104 }
{
    let [source, destination, source_port, destination_port, protocol] = values;
    let addresses = joined(u128::from(source), 32, destination);
    let with_source_port = joined(addresses, 16, source_port);
    let with_ports = joined(with_source_port, 16, destination_port);
    joined(with_ports, 8, protocol)
}

/// The bits of the field in a key, as a number.
fn part(key: u128, field: usize) -> u32
    requires { field < 5 }
    ensures part { result ≡ field_part field key }
    ensures small { result < 2 ^ width field }
{
    match field {
        0 => ((key >> 72) % (1 << 32)) as u32,
        1 => ((key >> 40) % (1 << 32)) as u32,
        2 => ((key >> 24) % (1 << 16)) as u32,
        3 => ((key >> 8) % (1 << 16)) as u32,
        _ => (key % (1 << 8)) as u32,
    }
}

/// The five values whose bits are the lowest 104 of the number.
pub fn values_of(key: u128) -> [u32; 5]
    ensures parts { (k : ℕ) → k < 5 → slice_index result k ≡ field_part k key }
    ensures small { (k : ℕ) → k < 5 → slice_index result k < 2 ^ width k }
{
    [
        part(key, 0),
        part(key, 1),
        part(key, 2),
        part(key, 3),
        part(key, 4),
    ]
}
