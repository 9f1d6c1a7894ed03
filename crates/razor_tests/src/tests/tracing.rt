//! The answers of a table to the headers of a trace.
use super::{ANY_TCP_TABLE, ROOM, check_over};
use crate::setting::{Setting, calm};
use razor_base::MemDesk;
use razor_core::Words;
use std::process::Abort;
use std::test::Fail;

/// One entry for protocol 6, in the first version of the text: 190 bytes.
const TRITS: &[u8] =
    b"table 1 slot 144 composed 2 entries 1\n************************************************************************************************00000110**************************************** accept\n";

/// A header and a further column: 33 bytes.
const ONE_HEADER: &[u8] = b"167772161 167772162 1024 80 6 12\n";

/// Answers the trace under `tr` by the table under `t1`, and compares the status, the output and the line
/// on standard error.
fn check_trace(
    rt: &(impl Abort + AllocGlobal),
    table: &[u8],
    setting: Setting<'_>,
    room: usize,
    status: u8,
    out: &[u8],
    err: &[u8],
) -> Result<(), Fail> {
    let mut words = Words::new(rt.alloc());
    for word in ["trace", "t1", "tr"] {
        words.push(word)?;
    }
    let mut desk = MemDesk::new(rt.alloc());
    desk.add("t1", table)?;
    desk.add("tr", setting.list)?;
    check_over(rt, &words, &mut desk, setting, room, status, out, err)
}

/// With reads of one byte, of which the table takes 190 and one for its end.
#[test]
fn a_line_that_was_read_is_answered(rt: HostRuntime) -> Result<(), Fail> {
    for failing_read in [1, 191, 192, 193, 207, 224, 225, 226] {
        let setting = Setting {
            most: 1,
            failing_read,
            ..calm(ONE_HEADER)
        };
        let out: &[u8] = if failing_read < 225 { b"" } else { b"accept\n" };
        if failing_read < 192 {
            check_trace(&rt, TRITS, setting, ROOM, 5, b"", b"t1: read fault\n")?;
        } else if failing_read < 226 {
            check_trace(&rt, TRITS, setting, ROOM, 5, out, b"tr: read fault\n")?;
        } else {
            check_trace(&rt, TRITS, setting, ROOM, 0, out, b"")?;
        }
    }
    Ok(())
}

#[test]
fn answers_end_where_no_room_is_left(rt: HostRuntime) -> Result<(), Fail> {
    let whole = b"accept\n";
    for room in 0..whole.len() {
        check_trace(
            &rt,
            TRITS,
            calm(ONE_HEADER),
            room,
            6,
            &whole[..room],
            b"write fault\n",
        )?;
    }
    check_trace(
        &rt,
        ANY_TCP_TABLE,
        calm(ONE_HEADER),
        whole.len(),
        0,
        whole,
        b"",
    )
}
