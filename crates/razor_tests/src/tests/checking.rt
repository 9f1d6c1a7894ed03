//! Certificates of a list and a table.
use super::{ANY_TCP, ANY_TCP_TABLE, ROOM, check_over};
use crate::setting::{Setting, calm};
use razor_base::MemDesk;
use razor_core::Words;
use std::process::Abort;
use std::test::Fail;

/// The certificate of one rule for protocol 6: 159 bytes.
pub(super) const ANY_TCP_ROWS: &[u8] =
    b"0-4294967295 0-4294967295 0-65535 0-65535 0-5 - -\n0-4294967295 0-4294967295 0-65535 0-65535 6-6 1 1\n0-4294967295 0-4294967295 0-65535 0-65535 7-255 - -\nrows 3\n";

/// Checks the certificate with reads of at most so many bytes, of which one may fail.
fn check_at(
    rt: &(impl Abort + AllocGlobal),
    texts: [&[u8]; 3],
    most: usize,
    failing_read: u64,
    status: u8,
    out: &[u8],
    err: &[u8],
) -> Result<(), Fail> {
    let mut words = Words::new(rt.alloc());
    for word in ["check", "list", "table", "rows"] {
        words.push(word)?;
    }
    let [list, table, rows] = texts;
    let mut desk = MemDesk::new(rt.alloc());
    desk.add("list", list)?;
    desk.add("table", table)?;
    desk.add("rows", rows)?;
    let setting = Setting {
        most,
        failing_read,
        ..calm(rows)
    };
    check_over(rt, &words, &mut desk, setting, ROOM, status, out, err)
}

const RIGHT: [&[u8]; 3] = [ANY_TCP, ANY_TCP_TABLE, ANY_TCP_ROWS];

/// With reads of one byte: the list has 58 bytes, the table 107 and the certificate 159, and the end of each
/// is one read more.
#[test]
fn inputs_are_read_in_order(rt: HostRuntime) -> Result<(), Fail> {
    let rows: [(u64, &[u8]); 6] = [
        (1, b"list: read fault\n"),
        (59, b"list: read fault\n"),
        (60, b"table: read fault\n"),
        (167, b"table: read fault\n"),
        (168, b"rows: read fault\n"),
        (327, b"rows: read fault\n"),
    ];
    for (failing, line) in rows {
        check_at(&rt, RIGHT, 1, failing, 5, b"", line)?;
    }
    check_at(&rt, RIGHT, 1, 328, 0, b"valid rows=3\n", b"")
}
