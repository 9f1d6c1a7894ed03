//! The values and the masks of five prefixes.
ghost use Rattle.std.specs.Prelude.{◌≡◌, ◌<◌, ◌^◌, ℕ, map, slice_index};
ghost use Rattle.field_boxes.specs.Headline.Fields.{stated, width};
ghost use Rattle.field_boxes.specs.Headline.Prefix.{FitsWidth};
ghost use Rattle.ternary_words.specs.Prefixes.{FitFields, mask_of, masks_of};

use field_boxes::Prefix;

/// The number whose bits are 1 at the places of a field of `width` bits that the prefix sets.
fn mask(prefix: &Prefix, width: u8) -> u32
    requires { FitsWidth width prefix.now }
    ensures { result ≡ mask_of width prefix.now }
{
    let set = (1u64 << prefix.len) - 1;
    (set << (width - prefix.len)) as u32
}

/// The mask of each of the five prefixes.
pub(crate) fn masks(prefixes: &[Prefix; 5]) -> [u32; 5]
    requires { FitFields stated prefixes.now }
    ensures masks { result ≡ masks_of stated prefixes.now }
    ensures small { (k : ℕ) → k < 5 → slice_index result k < 2 ^ width k }
{
    let [source, destination, source_port, destination_port, protocol] = *prefixes;
    [
        mask(&source, 32),
        mask(&destination, 32),
        mask(&source_port, 16),
        mask(&destination_port, 16),
        mask(&protocol, 8),
    ]
}

/// The value of each of the five prefixes.
pub(crate) fn values(prefixes: &[Prefix; 5]) -> [u32; 5]
    requires { FitFields stated prefixes.now }
    ensures values { result ≡ map (λ p. p.value) prefixes.now }
    ensures small { (k : ℕ) → k < 5 → slice_index result k < 2 ^ width k }
{
    let [source, destination, source_port, destination_port, protocol] = *prefixes;
    [
        source.value,
        destination.value,
        source_port.value,
        destination_port.value,
        protocol.value,
    ]
}
