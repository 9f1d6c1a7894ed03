//! Certificates that are written.
use super::checking::ANY_TCP_ROWS;
use super::{ANY_TCP, ANY_TCP_TABLE, check_over};
use crate::setting::calm;
use razor_base::MemDesk;
use razor_core::Words;
use std::process::Abort;
use std::test::Fail;

/// Writes the certificate into so much room, and compares the status, the output and the line on standard error.
fn check_cert(
    rt: &(impl Abort + AllocGlobal),
    room: usize,
    status: u8,
    out: &[u8],
    err: &[u8],
) -> Result<(), Fail> {
    let mut words = Words::new(rt.alloc());
    for word in ["cert", "list", "table"] {
        words.push(word)?;
    }
    let mut desk = MemDesk::new(rt.alloc());
    desk.add("list", ANY_TCP)?;
    desk.add("table", ANY_TCP_TABLE)?;
    check_over(rt, &words, &mut desk, calm(ANY_TCP), room, status, out, err)
}

#[test]
fn a_front_is_written_into_little_room(rt: HostRuntime) -> Result<(), Fail> {
    for room in 0..ANY_TCP_ROWS.len() {
        check_cert(&rt, room, 6, &ANY_TCP_ROWS[..room], b"write fault\n")?;
    }
    check_cert(&rt, ANY_TCP_ROWS.len(), 0, ANY_TCP_ROWS, b"")
}
