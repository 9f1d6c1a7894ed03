//! The tests of the top call: faults at each read and each write, and little room. What else it does is shown by the
//! rows of `tests/rows`, over files.

mod certifying;
mod checking;
mod counted;
mod editing;
mod faults;
mod running;
mod tracing;

use crate::setting::Setting;
use razor_base::{MemDesk, MemSink};
use razor_core::{Words, razor};
use std::alloc::Global;
use std::process::Abort;
use std::test::Fail;

/// Room for all that a test writes.
const ROOM: usize = 1 << 20;

/// The rule of the whole field but for the protocol: 58 bytes.
const ANY_TCP: &[u8] = b"@0.0.0.0/0\t0.0.0.0/0\t0 : 65535\t0 : 65535\t0x06/0xFF\taccept\n";

/// The table of this rule: 107 bytes.
const ANY_TCP_TABLE: &[u8] =
    b"table 2 slot 144 composed 1 entries 1\n00000000/00000000 00000000/00000000 0000/0000 0000/0000 06/FF accept\n";

/// How a call ended, with what it wrote and said.
#[derive(Drop)]
struct Outcome {
    status: u8,
    out: MemSink,
    err: MemSink,
}

/// Calls the program with the words over the desk, with so much room for the output.
fn call_over(
    alloc: Global,
    words: &Words,
    desk: &mut MemDesk,
    setting: Setting<'_>,
    room: usize,
) -> Result<Outcome, Fail> {
    desk.piece_limit(setting.most.max(1));
    desk.fail_at(setting.failing_read)?;
    let mut out = MemSink::new(alloc, room)?;
    out.fail_at(setting.failing_write)?;
    let mut err = MemSink::new(alloc, ROOM)?;
    err.fail_at(setting.failing_line)?;
    let status = razor(alloc, words, desk, &mut out, &mut err);
    Ok(Outcome { status, out, err })
}

/// The same with the list under `in`, and room for all that is written.
fn call(alloc: Global, words: &[&str], setting: Setting<'_>) -> Result<Outcome, Fail> {
    let mut all = Words::new(alloc);
    for word in words {
        all.push(word)?;
    }
    let mut desk = MemDesk::new(alloc);
    desk.add("in", setting.list)?;
    call_over(alloc, &all, &mut desk, setting, ROOM)
}

/// Calls the program with the words over the desk, with so much room for the output, and compares the status, the output
/// and the line on standard error.
fn check_over(
    rt: &(impl Abort + AllocGlobal),
    words: &Words,
    desk: &mut MemDesk,
    setting: Setting<'_>,
    room: usize,
    status: u8,
    out: &[u8],
    err: &[u8],
) -> Result<(), Fail> {
    let outcome = call_over(rt.alloc(), words, desk, setting, room)?;
    assert!(rt; outcome.status == status);
    assert!(rt; outcome.out.bytes() == out);
    assert!(rt; outcome.err.bytes() == err);
    Ok(())
}
