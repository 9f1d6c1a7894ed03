//! At which bit to halve a cube. Nothing is promised of it: any open bit is right.

use crate::bit_counts::BitCounts;
use crate::cube::Cube;
use agreement_check::Sides;
use field_boxes::{Rule, Span};
use razor_limits::Memory;
use std::alloc::Global;

/// The bits of the source ports, and of the destination ports.
const PORTS: [u128; 2] = [0xffff << 24, 0xffff << 8];

/// The bits that the first values of the spans have in common with the last, of a field of `width` bits.
fn common(spans: &[Span], width: u32) -> u128 {
    let (Some(first), Some(last)) = (spans.first(), spans.last()) else {
        return 0;
    };
    let free = 32u32.saturating_sub((first.lo ^ last.hi).leading_zeros());
    ((1 << width.min(32)) - 1) >> free.min(32) << free.min(32)
}

/// The bits that all headers of the rule have in common.
fn front(rule: &Rule) -> u128 {
    let [
        source,
        destination,
        source_ports,
        destination_ports,
        protocol,
    ] = rule.sets();
    common(source, 32) << 72
        | common(destination, 32) << 40
        | common(source_ports, 16) << 24
        | common(destination_ports, 16) << 8
        | common(protocol, 8)
}

/// The bits that all headers of each rule have in common.
pub(crate) fn fronts(alloc: Global, rules: &[Rule]) -> Result<Vec<u128>, Memory> {
    let mut fronts = Vec::new(alloc);
    for rule in rules {
        fronts.push(front(rule))?;
    }
    Ok(fronts)
}

/// The bits that the rule asks for in the cube: those of its front, and of ports that it hasn't all the highest open one.
fn asked(rule: &Rule, front: u128, cube: &Cube) -> u128 {
    let open = !cube.word.mask;
    let mut asked = front;
    if !have_all(rule.ports[0].spans(), cube.spans[2]) {
        asked |= highest(open & PORTS[0]);
    }
    if !have_all(rule.ports[1].spans(), cube.spans[3]) {
        asked |= highest(open & PORTS[1]);
    }
    asked & open
}

/// Whether one of the spans has all of this one.
fn have_all(spans: &[Span], inner: Span) -> bool {
    spans
        .iter()
        .any(|span| span.lo <= inner.lo && inner.hi <= span.hi)
}

/// The highest of these bits, or none where there are none.
fn highest(bits: u128) -> u128 {
    if bits == 0 {
        return 0;
    }
    1 << (127 - bits.leading_zeros())
}

/// The highest of the bits that most of these ask for, of those that the cube leaves open.
pub(crate) fn hint(
    sides: &Sides,
    fronts: &[u128],
    rules: &[u32],
    entries: &[u32],
    cube: &Cube,
) -> u32 {
    let mut counts = BitCounts::new();
    for &place in rules {
        if let Some(rule) = sides.list.rules.get(place as usize)
            && let Some(front) = fronts.get(place as usize)
        {
            counts.add(asked(rule, *front, cube));
        }
    }
    for &place in entries {
        if let Some(entry) = sides.table.entries.get(place as usize) {
            counts.add(entry.word.mask & !cube.word.mask);
        }
    }
    127u32.saturating_sub(counts.most().leading_zeros())
}
