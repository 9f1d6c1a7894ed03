//! The bits of a header as two numbers.
ghost use Rattle.std.specs.Prelude.{◌≡◌, ◌+◌, ◌*◌, ◌≤◌, ◌<◌, ◌^◌};

use field_boxes::Header;

/// The 104 bits of a header as two numbers: its first 40 bits, and the other 64.
#[derive(Clone, Copy)]
pub(crate) struct Key {
    pub(crate) high: u64,
    pub(crate) low: u64,
}

/// The number with the bits of `low`, so many as `width`, behind those of `high`.
fn joined(high: u64, width: u8, low: u32) -> u64
    requires room { high * 2 ^ width < 2 ^ 64 }
    requires width { width < 64 }
    requires small { low < 2 ^ width }
    ensures { result ≡ high * 2 ^ width + low }
{
    high << width | u64::from(low)
}

impl Key {
    ghost use Rattle.std.specs.Prelude.{◌≡◌};
    ghost use Rattle.ternary_words.specs.Headline.Word.{header_bits};
    ghost use Rattle.tcam_sim.specs.Keys.{key_bits};

    /// The key of a header.
    pub(crate) fn of(header: &Header) -> Key
        ensures { key_bits result ≡ header_bits header.now.values }
    {
        let [source, destination, source_port, destination_port, protocol] = header.values;
        let ports = joined(u64::from(destination % (1 << 24)), 16, source_port);
        let both_ports = joined(ports, 16, destination_port);
        Key {
            high: joined(u64::from(source), 8, destination >> 24),
            low: joined(both_ports, 8, protocol),
        }
    }
}
