//! Rules cut to a box.
ghost use Rattle.std.specs.Prelude.{◌≡◌, ◌≤◌, ◌+◌, ◌&&◌, ◌||◌, ℕ, List, ◌++◌, ◌∷◌, [], length, IfOk, IfSome};
ghost use Rattle.razor_limits.specs.declared.limits.TheConstants.{GREATEST_PORT, GREATEST_PROTOCOL};
ghost use Rattle.field_boxes.specs.Boxes.{box_of, box_holds};
ghost use Rattle.field_boxes.specs.Headline.Classifier.{union_holds, matches};
ghost use Rattle.field_boxes.specs.Headline.Fields.{stated, IsHeader};
ghost use Rattle.field_boxes.specs.Rules.{rule_of};
ghost use Rattle.field_boxes.specs.Spans.{interval_of, intervals_of};
ghost use Rattle.fdd_build.specs.Sets.{box_rule};
ghost use Rattle.box_query.specs.Asked.{number_decided, then_decided};
ghost use Rattle.box_query.specs.Cut.{AreLow, both_hold, matches_some, port_set, span_set, with_some};

use field_boxes::{Ports, Rule, Span};
use razor_base::Memory;
use std::alloc::Global;

/// The values that two spans have in common; none where there are none.
fn common(a: Span, b: Span) -> Option<Span>
    ensures values { (v : ℕ) → union_holds v (span_set result) ≡ both_hold v (interval_of a) (interval_of b) }
    ensures within { IfSome result (λ s. s.hi ≤ a.hi) }
{
    Span::new(a.lo.max(b.lo), a.hi.min(b.hi))
}

/// Puts what two spans have in common behind the others.
fn put_common(kept: &mut Vec<Span>, span: Span, to: Span) -> Result<(), Memory>
    requires { span.hi ≤ GREATEST_PORT }
    ensures values { IfOk result (λ _. (v : ℕ) → union_holds v (intervals_of kept.new.items) ≡
        (union_holds v (intervals_of kept.old.items) || both_hold v (interval_of span) (interval_of to))) }
    ensures few { IfOk result (λ _. length kept.new.items ≤ length kept.old.items + 1) }
    ensures low { IfOk result (λ _. AreLow kept.old.items → AreLow kept.new.items) }
{
    if let Some(shared) = common(span, to) {
        kept.push(shared)?;
    }
    Ok(())
}

/// The ports of the set that the span has; none where there are none.
fn common_ports(alloc: Global, ports: &Ports, to: Span) -> Result<Option<Ports>, Memory>
    ensures { IfOk result (λ found. (v : ℕ) → union_holds v (port_set found) ≡ (union_holds v ports.now && union_holds v (interval_of to ∷ []))) }
{
    let mut kept = Vec::new(alloc);
    for span in ports.spans() {
        put_common(&mut kept, *span, to)?;
    }
    Ok(Ports::of(&kept))
}

/// The rule of these sets, of which each may be missing; none where one is.
fn joined(
    source: Option<Span>,
    destination: Option<Span>,
    source_ports: Option<Ports>,
    destination_ports: Option<Ports>,
    protocol: Option<Span>,
    decision: u32,
) -> Option<Rule>
    requires { IfSome protocol (λ s. s.hi ≤ GREATEST_PROTOCOL) }
    ensures decision { IfSome result (λ r. r.decision ≡ decision) }
    ensures matched { (header : List ℕ) → IsHeader header →
        matches_some header result ≡ matches stated header (box_rule (span_set source ∷ span_set destination ∷ port_set source_ports ∷ port_set destination_ports ∷ span_set protocol ∷ [])) }
{
    Some(Rule {
        source: source?,
        destination: destination?,
        ports: [source_ports?, destination_ports?],
        protocol: protocol?,
        decision,
    })
}

/// Puts a rule behind the others, if there is one.
fn put_kept(rules: &mut Vec<Rule>, kept: Option<Rule>) -> Result<(), Memory>
    ensures { IfOk result (λ _. rules.new.items ≡ with_some rules.old.items kept) }
{
    match kept {
        Some(rule) => put_rule(rules, rule),
        None => Ok(()),
    }
}

/// Puts a rule behind the others.
pub(crate) fn put_rule(rules: &mut Vec<Rule>, rule: Rule) -> Result<(), Memory>
    ensures { IfOk result (λ _. rules.new.items ≡ rules.old.items ++ rule ∷ []) }
{
    rules.extend_from_slice(&[rule])?;
    Ok(())
}

/// Puts a rule that is cut to the box behind the others, with another decision: it matches the headers
/// of the box that this rule matches. None is put where there are none.
pub(crate) fn put_cut(
    alloc: Global,
    rules: &mut Vec<Rule>,
    rule: &Rule,
    spans: &[Span; 5],
    decision: u32,
) -> Result<(), Memory>
    ensures { IfOk result (λ _. (header : List ℕ) → IsHeader header → number_decided rules.new.items header ≡
        then_decided (number_decided rules.old.items header) (matches stated header (rule_of rule.now) && box_holds (box_of spans.now) header) decision) }
{
    let [source, destination, source_port, destination_port, protocol] = spans;
    let source_ports = common_ports(alloc, &rule.ports[0], *source_port)?;
    let destination_ports = common_ports(alloc, &rule.ports[1], *destination_port)?;
    let kept = joined(
        common(rule.source, *source),
        common(rule.destination, *destination),
        source_ports,
        destination_ports,
        common(rule.protocol, *protocol),
        decision,
    );
    put_kept(rules, kept)
}
