//! Rows of certificates as they are written, and the checker of tables whose words are prefixes.
use crate::tests::lists::boxes::protocols;
use field_boxes::RuleList;
use filter_reader::read_list;
use partition_check::{Checker, Row, write_row};
use razor_base::MemSink;
use std::alloc::Global;
use std::test::Fail;
use table_text::read_table;

#[test]
fn writes_each_row_as_a_line(rt: HostRuntime) -> Result<(), Fail> {
    let mut out = MemSink::new(rt.alloc(), 256)?;
    let tcp = Row {
        spans: protocols(6, 6),
        rule: Some(1),
        entry: Some(2),
    };
    let others = Row {
        spans: protocols(7, 255),
        rule: None,
        entry: None,
    };
    assert!(rt; write_row(&tcp, &mut out).is_ok() && write_row(&others, &mut out).is_ok());
    let text: &[u8] =
        b"0-4294967295 0-4294967295 0-65535 0-65535 6-6 1 2\n0-4294967295 0-4294967295 0-65535 0-65535 7-255 - -\n";
    assert!(rt; out.bytes() == text);
    Ok(())
}

/// One entry, whose word is a prefix in each field.
const TABLE: &[u8] =
    b"table 2 slot 144 composed 1 entries 1\n00000000/00000000 00000000/00000000 0000/0000 0000/0000 06/FF accept\n";

/// How many rows a new checker of the list and the table has accepted.
fn accepted(alloc: Global, list: &RuleList) -> Result<u64, Fail> {
    let table = read_table(alloc, TABLE)?;
    let checker = Checker::new(alloc, list, &table)?;
    Ok(checker.accepted())
}

#[test]
fn a_new_checker_has_accepted_no_row(rt: HostRuntime) -> Result<(), Fail> {
    let list = read_list(rt.alloc(), b"")?;
    assert_eq!(rt; accepted(rt.alloc(), &list)?, 0);
    Ok(())
}
