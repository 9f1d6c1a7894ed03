//! The text of a rule's ports.
ghost use Rattle.std.specs.Prelude.{◌++◌, ◌∷◌};
ghost use Rattle.std.specs.List.{flat_map};
ghost use Rattle.razor_base.specs.Output.{Puts};
ghost use Rattle.field_boxes.specs.Spans.{interval_of};
ghost use Rattle.filter_reader.specs.ListText.{ports_text, range_text};

use field_boxes::{Ports, Span};
use razor_base::{Failed, Part, Pending, Sink, put_parts};

/// Puts a tab and the ranges of the ports, parted by `,`.
pub fn put_ports<K: Sink>(ports: &Ports, pending: &mut Pending, out: &mut K) -> Result<(), Failed>
    ensures { Puts K.written K.faults out.old out.new pending.old pending.new (9 ∷ ports_text ports.now) result }
{
    match ports.spans() {
        [first, others @ ..] => {
            put_range("\t", first, pending, out)?;
            put_more_ranges(others, pending, out)
        }
        [] => pending.put(out, b"\t"),
    }
}

/// Puts the ranges, each behind a `,`.
fn put_more_ranges<K: Sink>(
    spans: &[Span],
    pending: &mut Pending,
    out: &mut K,
) -> Result<(), Failed>
    ensures { Puts K.written K.faults out.old out.new pending.old pending.new (flat_map (λ s. 44 ∷ range_text (interval_of s)) spans.now) result }
{
    for span in spans {
        put_range(",", span, pending, out)?;
    }
    Ok(())
}

/// Puts the label and the two ends of the span.
fn put_range<K: Sink>(
    label: &str,
    span: &Span,
    pending: &mut Pending,
    out: &mut K,
) -> Result<(), Failed>
    ensures { Puts K.written K.faults out.old out.new pending.old pending.new (label.now ++ range_text (interval_of span.now)) result }
{
    put_parts(
        pending,
        out,
        &[
            Part::Text(label),
            Part::Number(u128::from(span.lo)),
            Part::Text(" : "),
            Part::Number(u128::from(span.hi)),
        ],
    )
}
