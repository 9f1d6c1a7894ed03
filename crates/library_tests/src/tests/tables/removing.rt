//! The worked table without its redundant entries.
use razor_base::Memory;
use redundancy::remove;
use std::alloc::Global;
use std::process::Abort;
use std::test::Fail;
use ternary_words::{Entry, Word, are_prefixes};

/// The mask of the highest eight trits, and a value of them.
pub(super) const FIRST_BYTE: u128 = 0xff << 96;

pub(super) const TEN: u128 = 10 << 96;

/// An entry with this value and mask.
pub(super) fn entry(rt: &impl Abort, value: u128, mask: u128, decision: u32) -> Entry {
    assert!(rt; mask < 1 << 104);
    assert!(rt; value & mask == value);
    Entry {
        word: Word { value, mask },
        decision,
    }
}

/// What stays of the entries; none where a word is no prefix.
fn removed(alloc: Global, entries: Vec<Entry>) -> Result<Option<Vec<Entry>>, Memory> {
    if !are_prefixes(entries.as_slice()) {
        return Ok(None);
    }
    Ok(Some(remove(alloc, entries)?))
}

/// A pass from the first entry to the last would keep two.
#[test]
fn the_last_entry_stays_alone(rt: HostRuntime) -> Result<(), Fail> {
    let alloc = rt.alloc();
    let one = entry(&rt, TEN, FIRST_BYTE, 1);
    let two = entry(&rt, TEN, FIRST_BYTE, 2);
    let open = entry(&rt, 0, 0, 1);
    let mut table = Vec::new(alloc);
    table.extend_from_slice(&[one, two, open])?;
    match removed(alloc, table)? {
        Some(kept) => assert_eq!(rt; kept.as_slice(), [open].as_slice()),
        None => assert!(rt; false),
    }
    Ok(())
}
