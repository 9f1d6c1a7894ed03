//! Tests of failing reads and writes.
use super::{ROOM, call};
use crate::setting::{Setting, calm};
use razor_base::{MemDesk, MemSink};
use razor_core::{Words, razor};
use std::process::Abort;
use std::test::Fail;

/// One source, one destination port, one protocol.
const WEB: &[u8] = b"@10.0.0.0/8\t0.0.0.0/0\t0 : 65535\t80 : 80\t0x06/0xFF\tweb\n";

/// The table of the rule above.
const WEB_TABLE: &[u8] =
    b"table 2 slot 144 composed 1 entries 1\n0A000000/FF000000 00000000/00000000 0000/0000 0050/FFFF 06/FF web\n";

/// Expands the list, and compares the status, the output and the line on standard error.
fn check_expand(
    rt: &(impl Abort + AllocGlobal),
    setting: Setting<'_>,
    status: u8,
    out: &[u8],
    err: &[u8],
) -> Result<(), Fail> {
    let outcome = call(rt.alloc(), &["expand", "in"], setting)?;
    assert!(rt; outcome.status == status);
    assert!(rt; outcome.out.bytes() == out);
    assert!(rt; outcome.err.bytes() == err);
    Ok(())
}

#[test]
fn names_each_fault(rt: HostRuntime) -> Result<(), Fail> {
    let failing_read = Setting {
        failing_read: 1,
        ..calm(WEB)
    };
    check_expand(&rt, failing_read, 5, b"", b"in: read fault\n")?;
    let failing_write = Setting {
        failing_write: 1,
        ..calm(WEB)
    };
    check_expand(&rt, failing_write, 6, b"", b"write fault\n")?;
    let failing_line = Setting {
        failing_line: 1,
        ..calm(WEB)
    };
    check_expand(&rt, failing_line, 0, WEB_TABLE, b"")?;
    let failing_both = Setting {
        failing_write: 1,
        failing_line: 1,
        ..calm(WEB)
    };
    check_expand(&rt, failing_both, 6, b"", b"")
}

#[test]
fn answers_the_same_or_the_fault(rt: HostRuntime) -> Result<(), Fail> {
    for most in [1, 7, 4_096] {
        for failing in 0..200 {
            let reading = Setting {
                most,
                failing_read: failing,
                ..calm(WEB)
            };
            let outcome = call(rt.alloc(), &["expand", "in"], reading)?;
            if outcome.status == 5 {
                assert!(rt; outcome.out.bytes().is_empty());
                assert!(rt; outcome.err.bytes() == b"in: read fault\n".as_slice());
            } else {
                assert!(rt; outcome.status == 0);
                assert!(rt; outcome.out.bytes() == WEB_TABLE);
            }
            let writing = Setting {
                most,
                failing_write: failing,
                ..calm(WEB)
            };
            let outcome = call(rt.alloc(), &["expand", "in"], writing)?;
            assert!(rt; outcome.status == if failing == 1 { 6 } else { 0 });
            assert!(rt; WEB_TABLE.starts_with(outcome.out.bytes()));
        }
    }
    Ok(())
}

#[test]
fn writes_a_front_into_little_room(rt: HostRuntime) -> Result<(), Fail> {
    let mut words = Words::new(rt.alloc());
    words.push("expand")?;
    words.push("in")?;
    for room in 0..WEB_TABLE.len() {
        let mut desk = MemDesk::new(rt.alloc());
        desk.add("in", WEB)?;
        let mut out = MemSink::new(rt.alloc(), room)?;
        let mut err = MemSink::new(rt.alloc(), ROOM)?;
        assert!(rt; razor(rt.alloc(), &words, &mut desk, &mut out, &mut err) == 6);
        assert!(rt; out.bytes() == &WEB_TABLE[..room]);
        assert!(rt; err.bytes() == b"write fault\n".as_slice());
    }
    Ok(())
}
