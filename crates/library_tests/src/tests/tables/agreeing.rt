//! A list against tables: where they first differ, and the claims that a search finds.
use agreement_check::{Shown, check_text};
use agreement_proof::{compare_within, prove_within};
use agreement_search::{Found, Outcome, find, find_differences};
use field_boxes::{Header, RuleList};
use filter_reader::read_list;
use std::alloc::Global;
use std::process::Abort;
use std::test::Fail;
use table_equiv::first_difference;
use table_text::read_table;
use ternary_words::Table;

/// Some ports of one network are accepted, all else is denied.
const LIST: &[u8] =
    b"@10.0.0.0/8 0.0.0.0/0 0 : 65535 20 : 22 0x06/0xFF accept\n@0.0.0.0/0 0.0.0.0/0 0 : 65535 0 : 65535 0x00/0x00 deny\n";

/// Tables, with the least header that they don't decide as the list.
const TABLES: [(&[u8], Option<[u32; 5]>); 3] = [
    (
        b"table 2 slot 144 composed 3 entries 3\n0A000000/FF000000 00000000/00000000 0000/0000 0017/FFFF 06/FF deny\n0A000000/FF000000 00000000/00000000 0000/0000 0014/FFFC 06/FF accept\n00000000/00000000 00000000/00000000 0000/0000 0000/0000 00/00 deny\n",
        None,
    ),
    (
        b"table 2 slot 144 composed 2 entries 2\n0A000000/FF000000 00000000/00000000 0000/0000 0014/FFFC 06/FF accept\n00000000/00000000 00000000/00000000 0000/0000 0000/0000 00/00 deny\n",
        Some([167_772_160, 0, 0, 23, 6]),
    ),
    (
        b"table 2 slot 144 composed 3 entries 3\n00000001/0000FFFF 00000000/00000000 0000/0000 0000/0000 00/00 accept\n0A000000/FF000000 00000000/00000000 0000/0000 0014/FFFC 06/FF accept\n00000000/00000000 00000000/00000000 0000/0000 0000/0000 00/00 deny\n",
        Some([1, 0, 0, 0, 0]),
    ),
];

/// What a search has to come to.
fn outcome(header: Option<Header>) -> Outcome {
    match header {
        Some(header) => Outcome::Differ(header),
        None => Outcome::Equal,
    }
}

/// Each entry, each rule and each pair has a cover.
fn has_all(table: &Table, list: &RuleList, found: &Found) -> bool {
    let mut has_all = found.entries.len() == table.entries.len() + 1
        && found.rules.len() == list.rules.len() + 1
        && found.of_pairs.len() == found.pairs.len();
    for number in 0..found.of_pairs.len() {
        has_all = has_all && !found.of_pairs.steps(number).is_empty();
    }
    has_all
}

/// The header of a difference.
fn header_of(shown: Shown) -> Option<Header> {
    match shown {
        Shown::Equal => None,
        Shown::Differ(difference) => Some(difference.header),
    }
}

/// What is compared and what is proved is the same, after a search of so many words, and the proof is valid.
fn expect_proof(
    rt: &impl Abort,
    alloc: Global,
    list: &RuleList,
    table: &Table,
    header: Option<Header>,
    words: u64,
) -> Result<(), Fail> {
    let shown = compare_within(alloc, list, table, words)?;
    assert_eq!(rt; header_of(shown), header);
    let written = prove_within(alloc, list, table, words)?;
    assert_eq!(rt; written.valid.shown, shown);
    assert_eq!(rt;
        check_text(alloc, list, table, &written.text)?,
        written.valid
    );
    Ok(())
}

/// All find the same header, and the parts that differ have it.
fn expect(
    rt: &impl Abort,
    alloc: Global,
    list: &RuleList,
    table: &Table,
    values: Option<[u32; 5]>,
) -> Result<(), Fail> {
    let header = values.and_then(Header::new);
    assert_eq!(rt; first_difference(alloc, list, table)?, header);
    let found = find(alloc, list, table, 1 << 20)?;
    assert_eq!(rt; found.outcome, outcome(header));
    assert!(rt; has_all(table, list, &found));
    let differences = find_differences(alloc, list, table, 1000, 1 << 20)?;
    assert!(rt; differences.are_all && differences.parts.is_empty() == header.is_none());
    expect_proof(rt, alloc, list, table, header, 1 << 20)?;
    expect_proof(rt, alloc, list, table, header, 0)
}

#[test]
fn list_and_table_first_differ_there(rt: HostRuntime) -> Result<(), Fail> {
    let list = read_list(rt.alloc(), LIST)?;
    for (text, header) in TABLES {
        let table = read_table(rt.alloc(), text)?;
        expect(&rt, rt.alloc(), &list, &table, header)?;
    }
    Ok(())
}

/// The first table against the list with a bound that ends the search at once.
#[test]
fn a_search_that_is_ended_hands_over_what_it_has(rt: HostRuntime) -> Result<(), Fail> {
    let list = read_list(rt.alloc(), LIST)?;
    let table = read_table(rt.alloc(), TABLES[0].0)?;
    let found = find(rt.alloc(), &list, &table, 0)?;
    assert_eq!(rt; found.outcome, Outcome::Unknown);
    assert!(rt; has_all(&table, &list, &found));
    Ok(())
}

/// The proof that the empty list and the empty table decide alike, found and completed.
#[test]
fn nothing_agrees_with_nothing(rt: HostRuntime) -> Result<(), Fail> {
    let list = read_list(rt.alloc(), b"")?;
    let table = read_table(rt.alloc(), b"table 2 slot 144 composed 0 entries 0\n")?;
    let text = b"proof 1 rules 0 entries 0\ne r1\nr e1\npairs 0\n";
    for words in [0, 1 << 20] {
        let written = prove_within(rt.alloc(), &list, &table, words)?;
        assert!(rt; written.text.as_slice() == text.as_slice());
    }
    Ok(())
}
