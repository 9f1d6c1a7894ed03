//! The ports of a rule against those of a cube, from the least to the greatest one that it has.

use field_boxes::{Rule, Span};
use ternary_words::Word;

/// The least and the greatest port of a cube.
#[derive(Clone, Copy)]
struct Ends {
    lo: u32,
    hi: u32,
}

/// The source ports and the destination ports of the cube.
#[inline]
fn port_ends(cube: &Word) -> [Ends; 2] {
    [
        ends_of(cube.value >> 24, cube.mask >> 24),
        ends_of(cube.value >> 8, cube.mask >> 8),
    ]
}

/// The ports that these lowest 16 bits ask for.
#[inline]
fn ends_of(value: u128, mask: u128) -> Ends {
    let lo = low_half(value);
    Ends {
        lo,
        hi: lo | low_half(!mask),
    }
}

/// The lowest 16 bits.
#[inline(always)]
fn low_half(number: u128) -> u32 {
    (number % (1 << 16)) as u32
}

/// Whether some of the ports are in the spans.
#[inline]
fn have_some(spans: &[Span], ends: Ends) -> bool {
    spans
        .iter()
        .any(|span| span.lo <= ends.hi && ends.lo <= span.hi)
}

/// Whether all of them are.
#[inline]
fn have_all(spans: &[Span], ends: Ends) -> bool {
    spans
        .iter()
        .any(|span| span.lo <= ends.lo && ends.hi <= span.hi)
}

/// How many of them are.
fn count(spans: &[Span], ends: Ends) -> u128 {
    let mut count = 0u128;
    for span in spans {
        let (lo, hi) = (span.lo.max(ends.lo), span.hi.min(ends.hi));
        if lo <= hi {
            count = count.saturating_add(u128::from(hi - lo) + 1);
        }
    }
    count
}

/// Whether the rule has some of the cube's ports.
pub(crate) fn ports_meet(rule: &Rule, cube: &Word) -> bool {
    let [source, destination] = port_ends(cube);
    have_some(rule.ports[0].spans(), source) && have_some(rule.ports[1].spans(), destination)
}

/// Whether the rule has all of the cube's ports.
pub(crate) fn ports_hold(rule: &Rule, cube: &Word) -> bool {
    let [source, destination] = port_ends(cube);
    have_all(rule.ports[0].spans(), source) && have_all(rule.ports[1].spans(), destination)
}

/// How many of the cube's pairs of ports the rule has.
pub(crate) fn pairs_of_ports(rule: &Rule, cube: &Word) -> u128 {
    let [source, destination] = port_ends(cube);
    count(rule.ports[0].spans(), source).saturating_mul(count(rule.ports[1].spans(), destination))
}

/// Whether each span of the inner rule's ports lies in one of the outer rule's.
pub(crate) fn ports_lie_in(inner: &Rule, outer: &Rule) -> bool {
    lie_in(inner.ports[0].spans(), outer.ports[0].spans())
        && lie_in(inner.ports[1].spans(), outer.ports[1].spans())
}

fn lie_in(inner: &[Span], outer: &[Span]) -> bool {
    inner.iter().all(|span| {
        have_all(
            outer,
            Ends {
                lo: span.lo,
                hi: span.hi,
            },
        )
    })
}

/// Of each kind of ports of which the rule hasn't all of the cube's, the highest bit that the cube leaves open.
pub(crate) fn asked_of_ports(rule: &Rule, cube: &Word) -> u128 {
    let [source, destination] = port_ends(cube);
    let mut asked = 0;
    if !have_all(rule.ports[0].spans(), source) {
        asked |= highest(!cube.mask & 0xffff << 24);
    }
    if !have_all(rule.ports[1].spans(), destination) {
        asked |= highest(!cube.mask & 0xffff << 8);
    }
    asked
}

/// The highest of these bits, or none where there are none.
#[inline]
fn highest(bits: u128) -> u128 {
    if bits == 0 {
        return 0;
    }
    1 << (127 - bits.leading_zeros())
}

/// Whether the rule's ports are others than those of the word round it.
pub(crate) fn asks_for_more(rule: &Rule, word: &Word) -> bool {
    !ports_hold(rule, word)
}
