//! What a number that is drawn stands for in each column of a rule.
ghost use Rattle.std.specs.Prelude.{◌≡◌, ◌≢◌, ◌≤◌, ◌∷◌, [], IsTrue};
ghost use Rattle.razor_limits.specs.declared.limits.TheConstants.{GREATEST_PORT, GREATEST_PROTOCOL};
ghost use Rattle.field_boxes.specs.Headline.Names.{miss};
ghost use Rattle.field_boxes.specs.Names.{is_decision_word};
ghost use Rattle.field_boxes.specs.Headline.Prefix.{FitsWidth};
ghost use Rattle.field_boxes.specs.Spans.{interval_of};
ghost use Rattle.field_boxes.specs.Prefixes.{IsPrefix};
ghost use Rattle.field_boxes.specs.Protocols.{IsProtocol};
ghost use Rattle.list_generator.specs.DrawnSets as drawn;

use field_boxes::{Ports, Prefix, Span};
use razor_limits::limits::{GREATEST_PORT, GREATEST_PROTOCOL};

/// 0.0.0.0/0, 10.B.0.0/16, 10.B.C.0/24 or 10.B.C.D/32.
#[tactic(auto, unfolding(crate::specs::DrawnSets::drawn_prefix))]
fn drawn_prefix(number: u32) -> Prefix
    ensures prefix { result ≡ drawn.drawn_prefix number }
    ensures fits { FitsWidth 32 result }
{
    let network = (10 << 24) + ((number / 4 % 8) << 16);
    let subnet = (number / 32 % 4) << 8;
    let host = number / 128 % 16;
    let (value, len) = match number % 4 {
        0 => (0, 0),
        1 => (network, 16),
        2 => (network + subnet, 24),
        _ => (network + subnet + host, 32),
    };
    Prefix { value, len }
}

/// The addresses of that prefix.
pub(crate) fn addresses(number: u32) -> Span
    ensures values { interval_of result ≡ drawn.addresses number }
    ensures prefix { IsPrefix 32 result }
{
    drawn_prefix(number).span(32)
}

/// Every port, or the ports from 1024 on.
#[tactic(auto, unfolding(crate::specs::DrawnSets::source_ports))]
pub(crate) fn source_ports(number: u32) -> Span
    ensures values { interval_of result ≡ drawn.source_ports number }
    ensures ports { result.hi ≤ GREATEST_PORT }
{
    if number % 4 == 3 {
        Span {
            lo: 1024,
            hi: GREATEST_PORT,
        }
    } else {
        Span {
            lo: 0,
            hi: GREATEST_PORT,
        }
    }
}

/// Every port, a port of a service, those from 1024 on, those from 1 to 65534, or one of 1024 to 1087.
#[tactic(auto, unfolding(crate::specs::DrawnSets::destination_ports))]
pub(crate) fn destination_ports(number: u32) -> Span
    ensures values { interval_of result ≡ drawn.destination_ports number }
    ensures ports { result.hi ≤ GREATEST_PORT }
{
    let high = 1024 + number / 8 % 64;
    let (lo, hi) = match number % 8 {
        0 => (0, GREATEST_PORT),
        1 => (80, 80),
        2 => (443, 443),
        3 => (53, 53),
        4 => (22, 22),
        5 => (1024, GREATEST_PORT),
        6 => (1, 65_534),
        _ => (high, high),
    };
    Span { lo, hi }
}

/// The ports of the span.
pub(crate) fn ports(span: Span) -> Ports
    requires { span.hi ≤ GREATEST_PORT }
    ensures { result ≡ interval_of span ∷ [] }
{
    match Ports::of(&[span]) {
        Some(ports) => ports,
        None => unreachable!(),
    }
}

/// Every protocol, TCP or UDP.
#[tactic(auto, unfolding(crate::specs::DrawnSets::protocols))]
pub(crate) fn protocols(number: u32) -> Span
    ensures values { interval_of result ≡ drawn.protocols number }
    ensures protocol { IsProtocol result }
    ensures inside { result.hi ≤ GREATEST_PROTOCOL }
{
    match number % 4 {
        0 => Span {
            lo: 0,
            hi: GREATEST_PROTOCOL,
        },
        3 => Span { lo: 17, hi: 17 },
        _ => Span { lo: 6, hi: 6 },
    }
}

/// `accept`, `deny` or `log`.
#[tactic(auto, unfolding(crate::specs::DrawnSets::decision))]
pub(crate) fn decision(number: u32) -> &'static str
    ensures text { result.now ≡ drawn.decision number }
    ensures word { IsTrue (is_decision_word result.now) }
    ensures named { result.now ≢ miss }
{
    match number % 3 {
        0 => "accept",
        1 => "deny",
        _ => "log",
    }
}
