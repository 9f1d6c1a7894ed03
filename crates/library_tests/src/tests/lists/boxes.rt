//! Boxes of headers.
ghost use Rattle.std.specs.Prelude.{◌≤◌};
ghost use Rattle.field_boxes.specs.Spans.{AreInside};

use field_boxes::Span;

/// The whole of an address.
pub(super) const ADDRESSES: Span = Span {
    lo: 0,
    hi: 4_294_967_295,
};

/// The whole of a port.
pub(super) const PORTS: Span = Span { lo: 0, hi: 65_535 };

/// The box that is open but for the protocol.
pub(super) fn protocols(lo: u32, hi: u32) -> [Span; 5]
    requires ordered { lo ≤ hi }
    requires inside { hi ≤ 255 }
    ensures { AreInside result }
{
    [ADDRESSES, ADDRESSES, PORTS, PORTS, Span { lo, hi }]
}
