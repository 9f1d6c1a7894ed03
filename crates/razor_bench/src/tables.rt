//! Reading a table.

use crate::input::input;
use anyhow::{Result, bail};
use razor_base::limits::MOST_TABLE_BYTES;
use std::fs::Files;
use table_text::read_table;
use ternary_words::Entry;

/// Reads the table on standard input so often, and prints each result.
pub fn run(rt: &(impl Files + Input + Print + AllocGlobal), times: u32) -> Result<()> {
    let bytes = input(rt, MOST_TABLE_BYTES)?;
    for _time in 0..times {
        let Ok(table) = read_table(rt.alloc(), &bytes) else {
            bail!("standard input is no table");
        };
        println!(rt;
            "slot {} composed {} entries {} names {} checksum {}",
            table.slot.bits,
            table.composed,
            table.entries.len(),
            table.names.count(),
            checksum(&table.entries)
        )?;
    }
    Ok(())
}

/// A number of all words and decisions, for a comparison of the two versions of a text.
pub fn checksum(entries: &[Entry]) -> u128 {
    let mut sum = 0u128;
    for entry in entries {
        sum = more(sum, entry.word.value);
        sum = more(sum, entry.word.mask);
        sum = more(sum, u128::from(entry.decision));
    }
    sum
}

fn more(sum: u128, number: u128) -> u128 {
    sum.wrapping_mul(31).wrapping_add(number)
}
