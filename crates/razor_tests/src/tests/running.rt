//! Scripts of updates over tables.
use super::{ANY_TCP_TABLE, Outcome, ROOM, call_over};
use crate::setting::{Setting, calm};
use razor_base::MemDesk;
use razor_core::Words;
use std::alloc::Global;
use std::test::Fail;

/// Protocol 17 is accepted, and all else denied.
const UDP_TABLE: &[u8] =
    b"table 2 slot 144 composed 2 entries 2\n00000000/00000000 00000000/00000000 0000/0000 0000/0000 11/FF accept\n00000000/00000000 00000000/00000000 0000/0000 0000/0000 00/00 deny\n";

/// The first table, then the second in its place, with three lookups at each stage.
const REPLACING: &[u8] =
    b"begin 1\nstep\nbegin 2\nlook 0 0 0 0 6\nlook 0 0 0 0 17\nlook 0 0 0 0 1\nstep\nlook 0 0 0 0 6\nlook 0 0 0 0 17\nlook 0 0 0 0 1\nstep\nlook 0 0 0 0 6\nlook 0 0 0 0 17\nlook 0 0 0 0 1\nstep\nlook 0 0 0 0 6\nlook 0 0 0 0 17\nlook 0 0 0 0 1\nstage\n";

const REPLACED: &[u8] =
    b"begun 1\nstage 1 of 1\nbegun 3\naccept\nmiss\nmiss\nstage 1 of 3\naccept\naccept\nmiss\nstage 2 of 3\naccept\naccept\ndeny\nstage 3 of 3\ndeny\naccept\ndeny\nidle\n";

/// Runs the script over the two tables in four slots, with so much room for the output.
fn drive(alloc: Global, setting: Setting<'_>, room: usize) -> Result<Outcome, Fail> {
    let mut words = Words::new(alloc);
    for word in ["drive", "--slots", "4", "s", "t1", "t2"] {
        words.push(word)?;
    }
    let mut desk = MemDesk::new(alloc);
    desk.add("s", REPLACING)?;
    desk.add("t1", ANY_TCP_TABLE)?;
    desk.add("t2", UDP_TABLE)?;
    call_over(alloc, &words, &mut desk, setting, room)
}

#[test]
fn lines_end_where_no_room_is_left(rt: HostRuntime) -> Result<(), Fail> {
    for room in 0..=REPLACED.len() {
        let outcome = drive(rt.alloc(), calm(REPLACING), room)?;
        assert!(rt; outcome.status == if room < REPLACED.len() { 6 } else { 0 });
        assert!(rt; outcome.out.bytes() == &REPLACED[..room]);
    }
    Ok(())
}

/// The script has 19 commands, so some of these writes aren't tried.
#[test]
fn lines_end_where_a_write_fails(rt: HostRuntime) -> Result<(), Fail> {
    for failing in 1..200 {
        let setting = Setting {
            failing_write: failing,
            ..calm(REPLACING)
        };
        let outcome = drive(rt.alloc(), setting, ROOM)?;
        if outcome.status == 6 {
            assert!(rt; outcome.out.bytes().len() < REPLACED.len());
            assert!(rt; REPLACED.starts_with(outcome.out.bytes()));
            assert!(rt; outcome.err.bytes() == b"write fault\n".as_slice());
        } else {
            assert!(rt; failing > 1 && outcome.status == 0);
            assert!(rt; outcome.out.bytes() == REPLACED);
        }
    }
    Ok(())
}
