//! Of traces, scripts and swaps.
use super::check;
use bank_update::{BeginRefusal, DriveError, Idle, ScriptError, ScriptReason, StepRefusal};
use std::test::Fail;
use trace_run::{TraceError, TraceReason};

#[test]
fn errors_of_traces_and_scripts_say_what_is_wrong(rt: HostRuntime) -> Result<(), Fail> {
    let short = TraceError::BadLine {
        line: 1,
        reason: TraceReason::Short,
    };
    check(&rt, &short, "line 1: too few columns")?;
    check(&rt, &TraceError::ReadFault, "a read failed")?;
    let long = "the trace is longer than the limit";
    check(&rt, &TraceError::TooLong, long)?;
    check(&rt, &TraceError::WriteFault, "a write failed")?;
    check(&rt, &TraceError::Memory, "memory was refused")?;
    let unknown = ScriptError::BadLine {
        line: 1,
        reason: ScriptReason::Command,
    };
    check(&rt, &unknown, "line 1: unknown command")?;
    check(&rt, &ScriptError::Memory, "memory was refused")?;
    check(&rt, &DriveError::WriteFault, "a write failed")?;
    check(&rt, &DriveError::Memory, "memory was refused")?;
    let no_room = BeginRefusal::NoRoom {
        free_above: 1,
        free_below: 2,
        wanted: 3,
    };
    check(&rt, &BeginRefusal::Busy, "a swap is pending")?;
    check(&rt, &no_room, "3 slots wanted, 1 free above and 2 below")?;
    check(&rt, &StepRefusal::Idle, "no swap is pending")?;
    check(&rt, &StepRefusal::DeviceFault, "the device failed")?;
    check(&rt, &Idle, "no swap is pending")
}
