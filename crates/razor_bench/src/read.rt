//! Reading a filter list.

use crate::input::{input, list_of};
use anyhow::Result;
use field_boxes::{Rule, Span};
use razor_base::limits::MOST_LIST_BYTES;
use std::fs::Files;

/// Reads the list on standard input so often, and prints each result.
pub fn run(rt: &(impl Files + Input + Print + AllocGlobal), times: u32) -> Result<()> {
    let bytes = input(rt, MOST_LIST_BYTES)?;
    for _time in 0..times {
        let list = list_of(rt.alloc(), &bytes)?;
        println!(rt;
            "rules {} names {} flagged {} checksum {}",
            list.rules.len(),
            list.names.count(),
            list.flagged,
            checksum(&list.rules)
        )?;
    }
    Ok(())
}

/// A number of all sets and decisions, for a comparison with another program.
fn checksum(rules: &[Rule]) -> u64 {
    let mut sum = 0u64;
    for rule in rules {
        sum = sum_of_rule(sum, rule);
    }
    sum
}

fn sum_of_rule(sum: u64, rule: &Rule) -> u64 {
    let mut sum = sum;
    for spans in rule.sets() {
        sum = sum_of_set(sum, spans);
    }
    more(sum, rule.decision)
}

fn sum_of_set(sum: u64, spans: &[Span]) -> u64 {
    let mut sum = sum;
    for span in spans {
        sum = more(more(sum, span.lo), span.hi);
    }
    sum
}

fn more(sum: u64, number: u32) -> u64 {
    sum.wrapping_mul(31).wrapping_add(u64::from(number))
}
