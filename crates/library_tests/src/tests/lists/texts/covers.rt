//! The shortest covers of spans and of unions by prefixes.
ghost use Rattle.std.specs.Prelude.{◌≤◌, ◌<◌, ◌^◌};

use field_boxes::{Prefix, Span};
use range_prefix::{cover, cover_all, cover_count};
use std::test::Fail;

#[test]
fn covers_are_shortest_and_rise(rt: HostRuntime) -> Result<(), Fail> {
    let span = Span::new(1, 14).ok_or("no span")?;
    let prefixes = cover(rt.alloc(), span, 4)?;
    let expected = [
        Prefix { value: 1, len: 4 },
        Prefix { value: 2, len: 3 },
        Prefix { value: 4, len: 2 },
        Prefix { value: 8, len: 2 },
        Prefix { value: 12, len: 3 },
        Prefix { value: 14, len: 4 },
    ];
    assert_eq!(rt; prefixes.as_slice(), expected.as_slice());
    Ok(())
}

/// Ports 80 to 90 and 443.
#[test]
fn covers_of_unions_rise_over_the_spans(rt: HostRuntime) -> Result<(), Fail> {
    let spans = [Span { lo: 80, hi: 90 }, Span { lo: 443, hi: 443 }];
    let prefixes = cover_all(rt.alloc(), &spans, 16)?;
    let expected = [
        Prefix { value: 80, len: 13 },
        Prefix { value: 88, len: 15 },
        Prefix { value: 90, len: 16 },
        Prefix {
            value: 443,
            len: 16,
        },
    ];
    assert_eq!(rt; prefixes.as_slice(), expected.as_slice());
    Ok(())
}

fn count_between(lo: u32, hi: u32, width: u8) -> Result<u32, Fail>
    requires wide { width ≤ 32 }
    requires inside { hi < 2 ^ width }
{
    let span = Span::new(lo, hi).ok_or("no span")?;
    Ok(cover_count(span, width))
}

#[test]
fn counts_of_worked_spans(rt: HostRuntime) -> Result<(), Fail> {
    assert_eq!(rt; count_between(1, 14, 4)?, 6);
    assert_eq!(rt; count_between(1, 65_534, 16)?, 30);
    assert_eq!(rt; count_between(1, 65_535, 16)?, 16);
    assert_eq!(rt; count_between(0, 65_535, 16)?, 1);
    assert_eq!(rt; count_between(80, 80, 16)?, 1);
    assert_eq!(rt; count_between(1, u32::MAX - 1, 32)?, 62);
    assert_eq!(rt; count_between(0, 0, 0)?, 1);
    Ok(())
}
