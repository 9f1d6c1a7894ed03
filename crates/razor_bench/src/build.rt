//! The diagram of a rule list.

use crate::input::{input, list_of};
use crate::tally::Tally;
use anyhow::Result;
use field_boxes::Rule;
use razor_base::limits::MOST_LIST_BYTES;
use std::fs::Files;

/// Builds the diagram of the list on standard input so often, each time in a store of its own, and prints each result.
pub fn run(rt: &(impl Files + Input + Print + AllocGlobal), times: u32) -> Result<()> {
    let bytes = input(rt, MOST_LIST_BYTES)?;
    let list = list_of(rt.alloc(), &bytes)?;
    for _time in 0..times {
        tell(rt, &list.rules)?;
    }
    Ok(())
}

/// Builds the diagram of the rules, and prints what can be told of it.
fn tell(rt: &(impl Print + AllocGlobal), rules: &[Rule]) -> Result<()> {
    let Tally {
        nodes,
        reached,
        checksum,
    } = Tally::of(rt.alloc(), rules)?;
    println!(rt;
        "rules {} nodes {nodes} reached {reached} checksum {checksum}",
        rules.len()
    )?;
    Ok(())
}
