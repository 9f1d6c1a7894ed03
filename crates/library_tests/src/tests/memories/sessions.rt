//! Worked sessions over a device of which some writes fail.
use super::devices::bank;
use edit_session::{Editor, Method, Replaced, read_session, session_on};
use field_boxes::Order;
use filter_reader::read_list;
use razor_base::{MemSink, Memory};
use slot_patch::SlotTable;
use std::process::Abort;
use std::test::Fail;
use tcam_sim::FaultyBank;
use ternary_words::{Limit, SlotWidth};

/// A session of a list of one rule in four slots, the numbers of writes that fail, its lines, and how many rules the list has
/// then.
#[derive(Clone, Copy)]
struct Script {
    failing: [u64; 2],
    text: &'static str,
    lines: &'static str,
    commands: u64,
    rules: usize,
}

const LIST: &str = "@0.0.0.0/0\t0.0.0.0/0\t0 : 65535\t0 : 65535\t0x06/0xFF accept\n";

const LIMIT: Limit = Limit { count: 262_144 };

const SCRIPTS: [Script; 4] = [
    // The first write of the second swap fails.
    Script {
        failing: [2, 0],
        text: "commit\nstep\nlook 0 0 0 0 6\n\
            add 1 @0.0.0.0/0\t0.0.0.0/0\t0 : 65535\t0 : 65535\t0x06/0xFF deny\nlook 0 0 0 0 6\n\
            commit\nlook 0 0 0 0 6\ncommit\n\
            step\nstep\nlook 0 0 0 0 6\nstep\nlook 0 0 0 0 6\n\
            drop 5\ndrop 1\ncommit\n",
        lines: "begun 1\nstage 1 of 1\naccept\nrules 2\naccept\nbegun 2\naccept\nbusy\n\
            device fault\nstage 1 of 2\naccept\nstage 2 of 2\ndeny\nno place 2\nrules 1\nbegun 2\n",
        commands: 16,
        rules: 1,
    },
    // The entry of the first list stays where it is to be cleared.
    Script {
        failing: [3, 0],
        text: "commit\nstep\nadd 1 @0.0.0.0/0\t0.0.0.0/0\t0 : 65535\t0 : 65535\t0x06/0xFF deny\n\
            commit\nstep\nstep\nlook 0 0 0 0 6\nstage\ncommit\nstep\nlook 0 0 0 0 6\n",
        lines: "begun 1\nstage 1 of 1\nrules 2\n\
            begun 2\nstage 1 of 2\ndevice fault\naccept\nstage 1 of 2\nbusy\nstage 2 of 2\ndeny\n",
        commands: 11,
        rules: 2,
    },
    // The swap goes back, and that fails once.
    Script {
        failing: [3, 0],
        text: "commit\nstep\nadd 1 @0.0.0.0/0\t0.0.0.0/0\t0 : 65535\t0 : 65535\t0x06/0xFF deny\n\
            commit\nstep\nabort\nstep\nlook 0 0 0 0 6\nstage\nstep\nlook 0 0 0 0 6\nstage\n",
        lines: "begun 1\nstage 1 of 1\nrules 2\n\
            begun 2\nstage 1 of 2\nstage 1 of 2 back\ndevice fault\naccept\nstage 1 of 2 back\n\
            stage 0 of 2 back\naccept\nidle\n",
        commands: 12,
        rules: 2,
    },
    // Nothing is settled until the third try.
    Script {
        failing: [1, 2],
        text: "look 0 0 0 0 6\ncommit\nstep\nlook 0 0 0 0 6\nstep\nstage\nstep\nlook 0 0 0 0 6\nstage\n",
        lines: "miss\nbegun 1\ndevice fault\nmiss\ndevice fault\nstage 0 of 1\nstage 1 of 1\naccept\nidle\n",
        commands: 9,
        rules: 1,
    },
];

/// Tables are patched in place.
const IN_PLACE: [Script; 2] = [
    // Another decision is one write, which fails once.
    Script {
        failing: [2, 0],
        text: "commit\nstep\nlook 0 0 0 0 6\n\
            add 1 @0.0.0.0/0\t0.0.0.0/0\t0 : 65535\t0 : 65535\t0x06/0xFF deny\nlook 0 0 0 0 6\n\
            commit\nlook 0 0 0 0 6\ncommit\n\
            step\nlook 0 0 0 0 6\nstage\nstep\nlook 0 0 0 0 6\nstage\n",
        lines: "begun 1\nstage 1 of 1\naccept\nrules 2\naccept\nbegun 1\naccept\nbusy\n\
            device fault\naccept\nstage 0 of 1\nstage 1 of 1\ndeny\nidle\n",
        commands: 14,
        rules: 2,
    },
    // Another word is two writes. The way back fails once.
    Script {
        failing: [3, 0],
        text: "commit\nstep\ndrop 1\n\
            add 1 @0.0.0.0/0\t0.0.0.0/0\t0 : 65535\t0 : 65535\t0x11/0xFF deny\n\
            commit\nstep\nlook 0 0 0 0 6\nlook 0 0 0 0 17\n\
            abort\nstep\nlook 0 0 0 0 17\nstep\nlook 0 0 0 0 6\nlook 0 0 0 0 17\nstage\n",
        lines: "begun 1\nstage 1 of 1\nrules 0\nrules 1\n\
            begun 2\nstage 1 of 2\naccept\ndeny\n\
            stage 1 of 2 back\ndevice fault\ndeny\nstage 0 of 2 back\naccept\nmiss\nidle\n",
        commands: 15,
        rules: 1,
    },
];

/// A session over the list and an empty device, whose writes of these numbers fail. Each table is written whole.
fn editor<'a, R: Abort + AllocGlobal>(
    rt: &R,
    order: &'a Order,
    failing: [u64; 2],
) -> Result<Editor<'a, FaultyBank>, Fail> {
    let list = read_list(rt.alloc(), LIST.as_bytes())?;
    let bank = bank(rt, rt.alloc(), 4, failing)?;
    let method = Method::Compiled(order);
    let slot = SlotWidth { bits: 144 };
    Ok(Editor::new(rt.alloc(), list, method, slot, LIMIT, bank))
}

type InPlace<'a> = Editor<'a, FaultyBank, SlotTable>;

/// The session that was made.
fn made<'a>(answer: Result<InPlace<'a>, (FaultyBank, Memory)>) -> Result<InPlace<'a>, Fail> {
    match answer {
        Ok(editor) => Ok(editor),
        Err(_) => Err("memory was refused".into()),
    }
}

/// The same, but each table is written in the slots where the old one stands.
fn in_place<'a, R: Abort + AllocGlobal>(
    rt: &R,
    order: &'a Order,
    failing: [u64; 2],
) -> Result<InPlace<'a>, Fail> {
    let list = read_list(rt.alloc(), LIST.as_bytes())?;
    let bank = bank(rt, rt.alloc(), 4, failing)?;
    let method = Method::Compiled(order);
    let slot = SlotWidth { bits: 144 };
    made(Editor::in_place(rt.alloc(), list, method, slot, LIMIT, bank))
}

/// Does the commands of the text, and answers how many there are.
fn run<R: Abort + AllocGlobal, T: Replaced>(
    rt: &R,
    editor: &mut Editor<'_, FaultyBank, T>,
    text: &str,
    out: &mut MemSink,
) -> Result<u64, Fail> {
    assert!(rt; editor.names().count() < 1000);
    assert!(rt; text.len() < 4000);
    let session = read_session(rt.alloc(), text.as_bytes())?;
    Ok(session_on(rt.alloc(), &session, editor, out)?)
}

/// Does the commands, and compares the lines and the number of rules.
fn check<R: Abort + AllocGlobal, T: Replaced>(
    rt: &R,
    script: &Script,
    editor: &mut Editor<'_, FaultyBank, T>,
) -> Result<(), Fail> {
    let mut out = MemSink::new(rt.alloc(), 1000)?;
    let ran = run(rt, editor, script.text, &mut out)?;
    assert!(rt; ran == script.commands);
    assert!(rt; out.bytes() == script.lines.as_bytes());
    let rules = editor.rules(rt.alloc())?;
    assert!(rt; rules.len() == script.rules);
    Ok(())
}

/// Compares a session whose tables are written whole.
fn check_whole<R: Abort + AllocGlobal>(rt: &R, script: &Script) -> Result<(), Fail> {
    let order = Order::stated();
    let mut editor = editor(rt, &order, script.failing)?;
    check(rt, script, &mut editor)
}

/// Compares a session whose tables are written in place.
fn check_in_place<R: Abort + AllocGlobal>(rt: &R, script: &Script) -> Result<(), Fail> {
    let order = Order::stated();
    let mut editor = in_place(rt, &order, script.failing)?;
    check(rt, script, &mut editor)
}

#[test]
fn a_session_goes_on_past_device_faults(rt: HostRuntime) -> Result<(), Fail> {
    for script in &SCRIPTS {
        check_whole(&rt, script)?;
    }
    for script in &IN_PLACE {
        check_in_place(&rt, script)?;
    }
    Ok(())
}
