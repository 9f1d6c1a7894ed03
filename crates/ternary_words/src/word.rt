//! Words of 104 trits.
ghost use Rattle.std.specs.Prelude.{◌≡◌, ◌<◌, ◌^◌, bit_and};

use crate::keys::key;
use crate::masks::{masks, values};
use crate::parts::prefix_at;
use field_boxes::{Header, Prefix, Span};

/// A word of 104 trits, over the keys of headers. Place `p` counts from the highest bit of the source
/// address; its trit is `*` where bit `103 - p` of `mask` is 0, and else that bit of `value`.
#[derive(Clone, Copy, Debug, PartialEq, Eq, Hash)]
pub struct Word {
    pub value: u128,
    pub mask: u128,
    pub ghost narrow: { mask < 2 ^ 104 },
    pub ghost masked: { bit_and value mask ≡ value },
}

impl Word {
    ghost use Rattle.std.specs.Prelude.{◌↔◌, ℕ, List, IfSome, IsSome, MatchOption, slice_index};
    ghost use Rattle.field_boxes.specs.Boxes.{box_holds, box_of};
    ghost use Rattle.field_boxes.specs.Headline.Fields.{IsHeader, stated, width};
    ghost use Rattle.field_boxes.specs.Spans.{AreInside};
    ghost use Rattle.ternary_words.specs.Headline.Word.{agrees, header_bits};
    ghost use Rattle.ternary_words.specs.Word.{trits};
    ghost use Rattle.ternary_words.specs.Prefixes.{FitFields, IsPrefixInEach, IsWordOf, all_hold, fields_trits};
    ghost use Rattle.ternary_words.specs.Views.{word_of};

    /// The word that matches exactly the headers whose five values the prefixes hold.
    pub fn of(prefixes: &[Prefix; 5]) -> Word
        requires { FitFields stated prefixes.now }
        ensures trits { word_of result ≡ fields_trits stated prefixes.now }
        ensures boxes { (values : List ℕ) → IsHeader values →
            agrees (word_of result) (header_bits values) ≡ all_hold stated prefixes.now values }
    {
        Word {
            value: key(values(prefixes)),
            mask: key(masks(prefixes)),
        }
    }

    /// The word with these five values and masks: a field's trit is `*` where its mask has a 0.
    pub fn of_fields(values: &[u32; 5], masks: &[u32; 5]) -> Word
        requires values { (k : ℕ) → k < 5 → slice_index values.now k < 2 ^ width k }
        requires masks { (k : ℕ) → k < 5 → slice_index masks.now k < 2 ^ width k }
        requires within { (k : ℕ) → k < 5 → bit_and (slice_index values.now k) (slice_index masks.now k) ≡ slice_index values.now k }
        ensures { word_of result ≡ trits (header_bits masks.now) (header_bits values.now) }
    {
        Word {
            value: key(*values),
            mask: key(*masks),
        }
    }

    /// Whether each trit that isn't `*` equals the bit of the header's key at its place.
    pub fn matches(&self, header: &Header) -> bool
        ensures { result ≡ agrees (word_of self.now) (header_bits header.now.values) }
    {
        (key(header.values) ^ self.value) & self.mask == 0
    }

    /// The box of the headers that the word matches; none where it isn't a prefix in each field.
    pub fn spans(&self) -> Option<[Span; 5]>
        ensures some { IsSome result ↔ IsPrefixInEach (word_of self.now) }
        ensures inside { IfSome result (λ spans. AreInside spans) }
        ensures boxes { IfSome result (λ spans. (values : List ℕ) → IsHeader values →
            box_holds (box_of spans) values ≡ agrees (word_of self.now) (header_bits values)) }
    {
        let [source, destination, source_port, destination_port, protocol] = self.prefixes()?;
        Some([
            source.span(32),
            destination.span(32),
            source_port.span(16),
            destination_port.span(16),
            protocol.span(8),
        ])
    }

    /// The prefix in each field; none where a field has none.
    fn prefixes(&self) -> Option<[Prefix; 5]>
        ensures { MatchOption result (IsPrefixInEach (word_of self.now) → ⊥) (λ prefixes. IsWordOf prefixes (word_of self.now)) }
    {
        Some([
            prefix_at(self, 72, 32)?,
            prefix_at(self, 40, 32)?,
            prefix_at(self, 24, 16)?,
            prefix_at(self, 8, 16)?,
            prefix_at(self, 0, 8)?,
        ])
    }
}
