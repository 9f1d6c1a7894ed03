//! Rules: a set of values for each field, and a decision.
ghost use Rattle.std.specs.Prelude.{◌≡◌, ◌≤◌, true, ℕ, [], ◌∷◌};
ghost use Rattle.razor_limits.specs.declared.limits.TheConstants.{GREATEST_ADDRESS, GREATEST_PORT, GREATEST_PROTOCOL, MOST_RANGES};
ghost use Rattle.field_boxes.specs.Headline.Classifier.{union_holds};
ghost use Rattle.field_boxes.specs.Spans.{interval_of, intervals_of};
ghost use Rattle.field_boxes.specs.Unions.{RiseApart};

use crate::boxes::{begins_past_a_field, has_all, has_any};
use crate::fields::greatest;
use crate::header::Header;
use crate::ports::Ports;
use crate::span::Span;
use razor_limits::limits::{GREATEST_PORT, GREATEST_PROTOCOL};
use std::slice::from_ref;

/// A set of values for each of the five fields, and the number of the decision.
#[derive(Clone, Copy, Debug, PartialEq, Eq)]
pub struct Rule {
    pub source: Span,
    pub destination: Span,
    /// The source ports and the destination ports.
    pub ports: [Ports; 2],
    pub protocol: Span,
    pub decision: u32,
    pub ghost inside: { protocol.hi ≤ GREATEST_PROTOCOL },
}

impl Rule {
    ghost use Rattle.std.specs.Prelude.{◌≡◌, true, IsTrue, IsFalse, map, ℕ, List, ◌<◌, ◌≤◌, length, slice_index_or, []};
    ghost use Rattle.std.specs.Bool.{OnTrue, OnFalse};
    ghost use Rattle.field_boxes.specs.Headline.Fields.{stated, IsHeader};
    ghost use Rattle.field_boxes.specs.Headline.Classifier.{matches};
    ghost use Rattle.field_boxes.specs.Spans.{intervals_of};
    ghost use Rattle.field_boxes.specs.Boxes.{AreSets, EachHeader, SomeHeader, box_of};
    ghost use Rattle.field_boxes.specs.Rules.{sets_of, rule_of};

    /// The rule that matches every header.
    pub fn open(decision: u32) -> Rule
        ensures decision { result.decision ≡ decision }
        ensures matched { (header : List ℕ) → IsHeader header → matches stated header (rule_of result) ≡ true }
    {
        let ports = all_ports();
        let addresses = Span {
            lo: 0,
            hi: u32::MAX,
        };
        Rule {
            source: addresses,
            destination: addresses,
            ports: [ports, ports],
            protocol: Span {
                lo: 0,
                hi: GREATEST_PROTOCOL,
            },
            decision,
        }
    }

    /// Whether every field's value lies in the rule's set of that field.
    pub fn holds(&self, header: &Header) -> bool
        ensures { result ≡ matches stated header.now.values (rule_of self.now) }
    {
        let [source, destination, source_port, destination_port, protocol] = header.values;
        self.source.holds(source)
            && self.destination.holds(destination)
            && self.ports[0].holds(source_port)
            && self.ports[1].holds(destination_port)
            && self.protocol.holds(protocol)
    }

    /// The spans of each field's set, which rise; between two of them a value is missing.
    pub fn sets(&self) -> [&[Span]; 5]
        ensures sets { map (λ s. intervals_of s.now) result ≡ sets_of self.now }
        ensures inside { AreSets (sets_of self.now) }
        ensures few { (k : ℕ) → k < 5 → length (slice_index_or (sets_of self.now) k []) ≤ MOST_RANGES }
    {
        [
            alone(&self.source),
            alone(&self.destination),
            self.ports[0].spans(),
            self.ports[1].spans(),
            alone(&self.protocol),
        ]
    }

    /// Whether every header of the box matches the rule.
    ///
    /// A span may reach past its field, where no header lies. So a box with a span that begins there has
    /// no header, and every rule covers it.
    pub fn covers(&self, spans: &[Span; 5]) -> bool
        ensures yes { OnTrue result (EachHeader (box_of spans.now) (λ header. IsTrue (matches stated header (rule_of self.now)))) }
        ensures no { OnFalse result (SomeHeader (box_of spans.now) (λ header. IsFalse (matches stated header (rule_of self.now)))) }
    {
        if begins_past_a_field(spans) {
            return true;
        }
        let sets = self.sets();
        for field in 0..5 {
            if !has_all(sets[field], spans[field], greatest(field)) {
                return false;
            }
        }
        true
    }

    /// Whether some header of the box matches the rule.
    pub fn meets(&self, spans: &[Span; 5]) -> bool
        ensures yes { OnTrue result (SomeHeader (box_of spans.now) (λ header. IsTrue (matches stated header (rule_of self.now)))) }
        ensures no { OnFalse result (EachHeader (box_of spans.now) (λ header. IsFalse (matches stated header (rule_of self.now)))) }
    {
        let sets = self.sets();
        for field in 0..5 {
            if !has_any(sets[field], spans[field], greatest(field)) {
                return false;
            }
        }
        true
    }
}

/// All ports.
fn all_ports() -> Ports
    ensures { (v : ℕ) → v ≤ GREATEST_PORT → union_holds v result ≡ true }
{
    match Ports::of(&[Span {
        lo: 0,
        hi: GREATEST_PORT,
    }]) {
        Some(ports) => ports,
        None => unreachable!(),
    }
}

/// The span as a slice.
fn alone(span: &Span) -> &[Span]
    ensures spans { intervals_of result.now ≡ interval_of span.now ∷ [] }
    ensures rise { (greatest : ℕ) → span.now.hi ≤ greatest → RiseApart 0 greatest (interval_of span.now ∷ []) }
    ensures small { span.now.hi ≤ GREATEST_ADDRESS }
{
    let _end = span.hi;
    from_ref(span)
}
