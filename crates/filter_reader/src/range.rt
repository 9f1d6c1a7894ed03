//! One range of a port column.
ghost use Rattle.std.specs.Prelude.{◌≡◌, ◌<◌, length, min, option_map, Option, Some, None, IfSome, if◌then◌else◌};
ghost use Rattle.std.specs.Option.{option_copied};
ghost use Rattle.text_lines.specs.Headline.Numbers.{is_number, number_of};
ghost use Rattle.filter_reader.specs.Ranges.{behind_comma, capped_first, first_range, seen_range};
ghost use Rattle.filter_reader.specs.Headline.Tokens.{tokens};

use crate::reason::Reason;
use crate::token::{from_token, next_token};
use field_boxes::{Ports, Span, laws};
use text_lines::number_up_to;

/// The two numbers of a range of ports, each 65,536 where it is greater.
#[derive(Clone, Copy)]
pub struct Range {
    pub lo: u32,
    pub hi: u32,
}

impl Range {
    ghost use Rattle.std.specs.Prelude.{◌≡◌, [], ◌∷◌, IfOk};
    ghost use Rattle.field_boxes.specs.Headline.Classifier.{Interval};
    ghost use Rattle.field_boxes.specs.Ports.{ArePorts};
    ghost use Rattle.field_boxes.specs.Spans.{interval_of};
    ghost use Rattle.filter_reader.specs.Headline.Ports.{ports_of};
    ghost use Rattle.filter_reader.specs.Ranges.{capped_range, ordered_range, range_view};

    /// The ports of a column that has this range alone.
    pub fn ports(self) -> Result<Ports, Reason>
        ensures read { (range : Interval) → range_view self ≡ capped_range range → result ≡ ports_of (range ∷ []) }
        ensures ports { IfOk result ArePorts }
    {
        laws::unions_are_values();
        let span = self.ordered();
        let Some(ports) = Ports::of(&[span]) else {
            return Err(Reason::PortRange);
        };
        if self.hi < self.lo {
            return Err(Reason::PortOrder);
        }
        Ok(ports)
    }

    /// From the lesser of the two numbers to the greater.
    pub fn ordered(self) -> Span
        ensures { interval_of result ≡ ordered_range (range_view self) }
    {
        Span {
            lo: self.lo.min(self.hi),
            hi: self.lo.max(self.hi),
        }
    }
}

/// The number that the text writes, or 65,536 where it is greater; none where the text isn't digits.
fn port(text: &[u8]) -> Option<u32>
    ensures { result ≡ (if is_number 10 text.now then Some (min (number_of 10 text.now) 65536) else None) }
{
    let number = number_up_to(text, 10, 65_536)?;
    Some(number as u32)
}

/// The range that the line begins with, and what stands behind it.
#[tactic(auto, unfolding(crate::specs::Ranges::first_range, crate::specs::Headline::Ports::range_of))]
pub fn first_range(line: &[u8]) -> Option<(Range, &[u8])>
    ensures range { seen_range result ≡ capped_first (first_range (tokens line.now)) }
    ensures shorter { IfSome result (λ parts. length parts.1.now < length line.now) }
{
    let (lo, rest) = next_token(line)?;
    let (mark, rest) = next_token(rest)?;
    let (hi, rest) = next_token(rest)?;
    let lo = port(lo)?;
    let hi = port(hi)?;
    if mark == b":".as_slice() {
        Some((Range { lo, hi }, rest))
    } else {
        None
    }
}

/// What stands behind the `,` that the line begins with.
pub fn behind_comma(line: &[u8]) -> Option<&[u8]>
    ensures rest { option_map (λ rest. tokens rest.now) result ≡ behind_comma (tokens line.now) }
    ensures shorter { IfSome result (λ rest. length rest.now < length line.now) }
{
    match from_token(line)? {
        [b',', rest @ ..] => Some(rest),
        _ => None,
    }
}
