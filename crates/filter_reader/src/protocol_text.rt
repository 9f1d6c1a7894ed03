//! The text of a rule's protocols.
ghost use Rattle.std.specs.Prelude.{◌≡◌, ◌<◌, ◌≤◌, ◌∷◌, true};
ghost use Rattle.std.specs.Fmt.{digit_glyph};
ghost use Rattle.razor_limits.specs.declared.limits.TheConstants.{GREATEST_PROTOCOL};
ghost use Rattle.razor_base.specs.Output.{Puts};
ghost use Rattle.field_boxes.specs.Spans.{interval_of};
ghost use Rattle.filter_reader.specs.ListText.{protocol_text};

use field_boxes::Span;
use razor_base::{Failed, Part, Pending, Sink, put_parts};

/// The hexadecimal digit, in upper case.
fn glyph(digit: u8) -> u8
    requires { digit < 16 }
    ensures { result ≡ digit_glyph true digit }
{
    if digit < 10 { b'0' + digit } else { 55 + digit }
}

/// The protocols as `0xP/0xM`: one with the mask FF, or every one.
fn protocol_bytes(span: &Span) -> [u8; 9]
    requires { span.now.hi ≤ GREATEST_PROTOCOL }
    ensures { result ≡ protocol_text (interval_of span.now) }
{
    if span.lo != span.hi {
        return *b"0x00/0x00";
    }
    let value = span.lo as u8;
    [
        b'0',
        b'x',
        glyph(value / 16),
        glyph(value % 16),
        b'/',
        b'0',
        b'x',
        b'F',
        b'F',
    ]
}

/// Puts a tab and the protocols.
pub fn put_protocol<K: Sink>(span: &Span, pending: &mut Pending, out: &mut K) -> Result<(), Failed>
    requires { span.now.hi ≤ GREATEST_PROTOCOL }
    ensures { Puts K.written K.faults out.old out.new pending.old pending.new (9 ∷ protocol_text (interval_of span.now)) result }
{
    let bytes = protocol_bytes(span);
    put_parts(pending, out, &[Part::Text("\t"), Part::Bytes(&bytes)])
}
