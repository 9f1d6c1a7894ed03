//! The text of one rule.
ghost use Rattle.std.specs.Prelude.{◌++◌, ◌∷◌, ◌≤◌, [], length};
ghost use Rattle.razor_base.specs.Output.{Puts};
ghost use Rattle.field_boxes.specs.NamedRules.{named_rule};
ghost use Rattle.field_boxes.specs.Spans.{interval_of};
ghost use Rattle.filter_reader.specs.ListText.{decision_text, prefix_text, rule_text};

use crate::port_text::put_ports;
use crate::protocol_text::put_protocol;
use field_boxes::{Decisions, Rule, Span, decision_word};
use razor_base::{Failed, Part, Pending, Sink, put_parts};

/// Puts the line of a rule.
pub fn put_rule<K: Sink>(
    rule: &Rule,
    names: &Decisions,
    pending: &mut Pending,
    out: &mut K,
) -> Result<(), Failed>
    requires { rule.now.decision ≤ length names.now }
    ensures { Puts K.written K.faults out.old out.new pending.old pending.new (rule_text (named_rule names.now rule.now)) result }
{
    put_prefix("@", &rule.source, pending, out)?;
    put_prefix("\t", &rule.destination, pending, out)?;
    put_ports(&rule.ports[0], pending, out)?;
    put_ports(&rule.ports[1], pending, out)?;
    put_protocol(&rule.protocol, pending, out)?;
    put_decision(names.name(rule.decision), pending, out)
}

/// Puts the label, the least address of the span, and the number of first bits in which the least and the
/// greatest agree.
fn put_prefix<K: Sink>(
    label: &str,
    span: &Span,
    pending: &mut Pending,
    out: &mut K,
) -> Result<(), Failed>
    ensures { Puts K.written K.faults out.old out.new pending.old pending.new (label.now ++ prefix_text (interval_of span.now)) result }
{
    let address = span.lo;
    put_parts(
        pending,
        out,
        &[
            Part::Text(label),
            Part::Number(u128::from(address / 0x100_0000)),
            Part::Text("."),
            Part::Number(u128::from(address / 0x1_0000 % 256)),
            Part::Text("."),
            Part::Number(u128::from(address / 0x100 % 256)),
            Part::Text("."),
            Part::Number(u128::from(address % 256)),
            Part::Text("/"),
            Part::Number(u128::from((span.hi - span.lo).leading_zeros())),
        ],
    )
}

/// Puts a decision word behind a tab, or nothing for a rule that is named by its own number, and the end
/// of the line.
fn put_decision<K: Sink>(name: &str, pending: &mut Pending, out: &mut K) -> Result<(), Failed>
    ensures { Puts K.written K.faults out.old out.new pending.old pending.new (decision_text name.now ++ 10 ∷ []) result }
{
    if decision_word(name.as_bytes()) {
        put_parts(
            pending,
            out,
            &[Part::Text("\t"), Part::Text(name), Part::Text("\n")],
        )
    } else {
        pending.put(out, b"\n")
    }
}
