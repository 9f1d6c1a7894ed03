//! Worked scripts over a device of which a write fails: that write moves nothing, and the next one is the same.
use super::devices::bank;
use bank_update::{Swapper, drive_on, read_script};
use razor_base::MemSink;
use std::process::Abort;
use std::test::Fail;
use table_text::read_table;
use tcam_sim::FaultyBank;
use ternary_words::Table;

/// Protocol 6 is accepted.
const FIRST: &str = "table 2 slot 144 composed 2 entries 1\n\
    00000000/00000000 00000000/00000000 0000/0000 0000/0000 06/FF accept\n";

/// Protocol 17 is accepted, and all else denied.
const SECOND: &str = "table 2 slot 144 composed 2 entries 2\n\
    00000000/00000000 00000000/00000000 0000/0000 0000/0000 11/FF accept\n\
    00000000/00000000 00000000/00000000 0000/0000 0000/0000 00/00 deny\n";

/// A script over four slots, the number of the write that fails, and its lines.
#[derive(Clone, Copy)]
struct Script {
    failing: u64,
    text: &'static str,
    lines: &'static str,
    commands: u64,
}

/// From no table to the first one, and then to the second one.
const REPLACING: &str = "begin 1\nstep\nbegin 2\nstep\nstep\nstep\nstep\n";

const SCRIPTS: [Script; 4] = [
    Script {
        failing: 2,
        text: REPLACING,
        lines: "begun 1\nstage 1 of 1\nbegun 3\n\
            device fault\nstage 1 of 3\nstage 2 of 3\nstage 3 of 3\n",
        commands: 7,
    },
    Script {
        failing: 3,
        text: REPLACING,
        lines: "begun 1\nstage 1 of 1\nbegun 3\n\
            stage 1 of 3\ndevice fault\nstage 2 of 3\nstage 3 of 3\n",
        commands: 7,
    },
    Script {
        failing: 4,
        text: REPLACING,
        lines: "begun 1\nstage 1 of 1\nbegun 3\n\
            stage 1 of 3\nstage 2 of 3\ndevice fault\nstage 3 of 3\n",
        commands: 7,
    },
    Script {
        failing: 2,
        text: "begin 2\nstep\nstep\nstep\n",
        lines: "begun 2\nstage 1 of 2\ndevice fault\nstage 2 of 2\n",
        commands: 4,
    },
];

/// The two tables.
fn tables<R: Abort + AllocGlobal>(rt: &R) -> Result<Vec<Table>, Fail> {
    let mut tables = Vec::new(rt.alloc());
    tables.push(read_table(rt.alloc(), FIRST.as_bytes())?)?;
    tables.push(read_table(rt.alloc(), SECOND.as_bytes())?)?;
    Ok(tables)
}

/// Runs a script over at most four tables, and answers how many commands ran.
fn run<R: Abort + AllocGlobal>(
    rt: &R,
    tables: &[Table],
    swapper: &mut Swapper<FaultyBank>,
    text: &str,
    out: &mut MemSink,
) -> Result<u64, Fail> {
    assert!(rt; tables.len() <= 4);
    let script = read_script(rt.alloc(), text.as_bytes(), tables.len() as u32)?;
    Ok(drive_on(rt.alloc(), &script, tables, swapper, out)?)
}

/// Runs the script over the two tables, and compares its lines.
fn check<R: Abort + AllocGlobal>(rt: &R, script: &Script) -> Result<(), Fail> {
    let mut swapper = Swapper::new(bank(rt, rt.alloc(), 4, [script.failing, 0])?);
    let mut out = MemSink::new(rt.alloc(), 1000)?;
    let ran = run(rt, &tables(rt)?, &mut swapper, script.text, &mut out)?;
    assert!(rt; ran == script.commands);
    assert!(rt; out.bytes() == script.lines.as_bytes());
    Ok(())
}

#[test]
fn a_device_fault_moves_nothing(rt: HostRuntime) -> Result<(), Fail> {
    for script in &SCRIPTS {
        check(&rt, script)?;
    }
    Ok(())
}
