//! Sets of ports.

use crate::span::Span;
use crate::span_list::SpanList;
use crate::uniting::united;
use razor_limits::limits::{GREATEST_PORT, MOST_RANGES};
use std::marker::Model;

/// A set of ports: the union of one to sixteen spans, which lie in the value itself.
///
/// The spans rise, and between two of them a port is missing. So each set has one list of spans, and two
/// sets with the same ports are equal.
#[derive(Clone, Copy, Debug, PartialEq, Eq)]
pub struct Ports {
    list: SpanList,
}

impl Model for Ports {
    ghost use Rattle.std.specs.Prelude.{List};
    ghost use Rattle.field_boxes.specs.Headline.Classifier.{Interval};
    ghost use Rattle.field_boxes.specs.Ports.{ArePorts};

    ghost Value = { List Interval };

    ghost view = { λ ports. ports.list };

    ghost invariant = { λ ports. ArePorts ports.list };

    ghost inverse = { λ intervals. record { list = intervals } };
}

impl Ports {
    ghost use Rattle.std.specs.Prelude.{◌≡◌, ℕ, is_some, IfSome};
    ghost use Rattle.field_boxes.specs.Headline.Classifier.{union_holds};
    ghost use Rattle.field_boxes.specs.Ports.{ArePorts, are_port_spans};
    ghost use Rattle.field_boxes.specs.Spans.{intervals_of};

    /// The union of the spans, in any order and with any overlaps.
    ///
    /// None where there is no span, where there are more than sixteen, and where one reaches past 65,535.
    pub fn of(spans: &[Span]) -> Option<Ports>
        ensures some { is_some result ≡ are_port_spans spans.now }
        ensures same { IfSome result (λ ports. (v : ℕ) → union_holds v ports ≡ union_holds v (intervals_of spans.now)) }
        ensures ports { IfSome result ArePorts }
    {
        if !port_spans(spans) {
            return None;
        }
        if let [only] = spans {
            return Some(Ports {
                list: SpanList::one(*only),
            });
        }
        let mut list = SpanList::new();
        for span in spans {
            list = united(&list, *span);
        }
        Some(Ports { list })
    }

    /// The spans, which rise; between two of them a port is missing.
    pub fn spans(&self) -> &[Span]
        ensures spans { intervals_of result.now ≡ self.now }
        ensures ports { ArePorts self.now }
    {
        self.list.as_slice()
    }

    /// Whether the port is in the set.
    pub fn holds(&self, value: u32) -> bool
        ensures { result ≡ union_holds value self.now }
    {
        one_holds(self.spans(), value)
    }
}

ghost use Rattle.std.specs.Prelude.{◌≡◌, nat_le};
ghost use Rattle.std.specs.List.{list_any, list_all};
ghost use Rattle.razor_limits.specs.declared.limits.TheConstants.{GREATEST_PORT};
ghost use Rattle.field_boxes.specs.Headline.Classifier.{interval_holds};
ghost use Rattle.field_boxes.specs.Spans.{interval_of};
ghost use Rattle.field_boxes.specs.Ports.{are_port_spans};

/// Whether there are one to sixteen spans, none of which reaches past 65,535.
fn port_spans(spans: &[Span]) -> bool
    ensures { result ≡ are_port_spans spans.now }
{
    1 <= spans.len() && spans.len() <= MOST_RANGES && end_in_ports(spans)
}

fn end_in_ports(spans: &[Span]) -> bool
    ensures { result ≡ list_all (λ s. nat_le s.hi GREATEST_PORT) spans.now }
{
    spans.iter().all(|span| span.hi <= GREATEST_PORT)
}

fn one_holds(spans: &[Span], value: u32) -> bool
    ensures { result ≡ list_any (λ s. interval_holds value (interval_of s)) spans.now }
{
    spans.iter().any(|span| span.holds(value))
}
