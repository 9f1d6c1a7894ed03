//! Questions about a table of three entries, and steps that keep its answers: the second entry is never reached, and the
//! last one decides as the first.

use super::removing::{FIRST_BYTE, TEN, entry};
use std::process::Abort;
use std::test::Fail;
use table_steps::{
    Need, answers_alike, are_numbered, can_exchange, free_for, is_tight, needs, put_in, redundant,
    take_out, tight,
};
use ternary_words::Entry;

/// As many steps as any question about these words takes.
const ENOUGH: u32 = 1000;

#[test]
fn questions_are_answered(rt: HostRuntime) -> Result<(), Fail> {
    let alloc = rt.alloc();
    let one = entry(&rt, TEN, FIRST_BYTE, 1);
    let two = entry(&rt, TEN, FIRST_BYTE, 2);
    let open = entry(&rt, 0, 0, 1);
    let entries = [one, two, open];
    let table = entries.as_slice();
    assert!(rt; table.len() == 3);
    match needs(alloc, table, 0, ENOUGH)? {
        Need::Needed(header) => assert!(rt; one.word.matches(&header)),
        Need::Redundant | Need::Unknown => assert!(rt; false),
    }
    assert!(rt; !redundant(alloc, table, 0, ENOUGH)?);
    assert!(rt; redundant(alloc, table, 1, ENOUGH)?);
    assert!(rt; !can_exchange(alloc, table, 1, &[two], ENOUGH)?);
    assert!(rt; can_exchange(alloc, table, 2, &[], ENOUGH)?);
    assert!(rt; !answers_alike(alloc, table, &[two, open], ENOUGH)?);
    assert!(rt; answers_alike(alloc, table, &[open], ENOUGH)?);
    assert!(rt; !free_for(alloc, &[], &[], table, &two.word, 2, ENOUGH)?);
    assert!(rt; free_for(alloc, &[], &[one], &[open], &two.word, 2, ENOUGH)?);
    Ok(())
}

/// Puts the first entry in once more, takes the second out, and then what is redundant.
fn take_steps<R: Abort + AllocGlobal>(
    rt: &R,
    table: &mut Vec<Entry>,
    one: Entry,
    two: Entry,
) -> Result<(), Fail> {
    let alloc = rt.alloc();
    assert!(rt; !put_in(alloc, table, 0, two, ENOUGH)?);
    assert!(rt; put_in(alloc, table, 0, one, ENOUGH)?);
    assert!(rt; table.len() == 4);
    assert!(rt; !take_out(alloc, table, 3, ENOUGH)?);
    assert!(rt; table.len() == 4);
    assert!(rt; take_out(alloc, table, 2, ENOUGH)?);
    assert!(rt; !is_tight(alloc, table.as_slice(), ENOUGH)?);
    tight(alloc, table, ENOUGH)?;
    assert!(rt; is_tight(alloc, table.as_slice(), ENOUGH)?);
    Ok(())
}

#[test]
fn steps_are_taken_where_the_answers_stay(rt: HostRuntime) -> Result<(), Fail> {
    let one = entry(&rt, TEN, FIRST_BYTE, 1);
    let two = entry(&rt, TEN, FIRST_BYTE, 2);
    let open = entry(&rt, 0, 0, 1);
    let mut table = Vec::new(rt.alloc());
    table.extend_from_slice(&[one, two, open])?;
    take_steps(&rt, &mut table, one, two)?;
    assert!(rt; are_numbered(&table, 1));
    assert_eq!(rt; table.as_slice(), [open].as_slice());
    Ok(())
}
