//! Editing sessions over a list.
use super::{ANY_TCP, check_over};
use crate::setting::calm;
use razor_base::MemDesk;
use razor_core::Words;
use std::process::Abort;
use std::test::Fail;

/// A swap to the list's table, a rule in front of the others, and a swap to the table with it; then the rule goes.
const EDITING: &[u8] =
    b"commit\nstep\nlook 0 0 0 0 6\nadd 1 @0.0.0.0/0\t0.0.0.0/0\t0 : 65535\t0 : 65535\t0x06/0xFF deny\nlook 0 0 0 0 6\ncommit\nlook 0 0 0 0 6\ncommit\nstep\nlook 0 0 0 0 6\nstep\nlook 0 0 0 0 6\ndrop 5\ndrop 1\ncommit\n";

const EDITED: &[u8] =
    b"begun 1\nstage 1 of 1\naccept\nrules 2\naccept\nbegun 2\naccept\nbusy\nstage 1 of 2\naccept\nstage 2 of 2\ndeny\nno place 2\nrules 1\nbegun 2\n";

/// Runs the session over the list of one rule in four slots, with so much room for the output, and compares the status,
/// the output and the line on standard error.
fn check_session(
    rt: &(impl Abort + AllocGlobal),
    room: usize,
    status: u8,
    out: &[u8],
    err: &[u8],
) -> Result<(), Fail> {
    let mut words = Words::new(rt.alloc());
    for word in ["session", "--slots", "4", "s", "in"] {
        words.push(word)?;
    }
    let mut desk = MemDesk::new(rt.alloc());
    desk.add("s", EDITING)?;
    desk.add("in", ANY_TCP)?;
    check_over(rt, &words, &mut desk, calm(EDITING), room, status, out, err)
}

#[test]
fn lines_of_a_session_end_where_no_room_is_left(rt: HostRuntime) -> Result<(), Fail> {
    for room in [0, 7, 8, 30, EDITED.len() - 1] {
        check_session(&rt, room, 6, &EDITED[..room], b"write fault\n")?;
    }
    check_session(&rt, EDITED.len(), 0, EDITED, b"")
}
