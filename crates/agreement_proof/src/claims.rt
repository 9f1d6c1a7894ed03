//! The lines of entries and of rules.
ghost use Rattle.std.specs.Prelude.{◌+◌, IfOk, length};
ghost use Rattle.agreement_check.specs.Claims.{entry_claim, rule_claim};
ghost use Rattle.agreement_check.specs.Covers.{entries_named, rules_named};
ghost use Rattle.agreement_check.specs.Views.{sides_in};
ghost use Rattle.agreement_proof.specs.Texts.{PutsCover, PutsCovers};

use crate::lines::{put_entry, put_rule};
use crate::testing::{entries_named, is_cover, rules_named};
use agreement_check::{Sides, Step, entry_task, rule_task};
use agreement_search::Covers;
use razor_limits::Memory;
use std::alloc::Global;

/// Puts the line of the entry at the place behind the text, with these steps if they are a cover, and gives how many of the
/// first rules its cover reaches.
fn put_entry_at(
    alloc: Global,
    text: &mut Vec<u8>,
    sides: &Sides,
    place: u32,
    steps: &[Step],
) -> Result<u64, Memory>
    ensures { IfOk result (λ reach. PutsCover (sides_in sides.now) (entry_claim (sides_in sides.now) place) 101 rules_named text.old.items text.new.items reach) }
{
    if is_cover(alloc, sides, &entry_task(sides, place), steps)? {
        put_entry(text, steps)?;
        return Ok(rules_named(steps));
    }
    let rules = sides.rule_count();
    put_entry(text, &[Step::InRule(rules)])?;
    Ok(u64::from(rules) + 1)
}

/// Puts the lines of all entries behind the text, and gives for each how many of the first rules its cover reaches.
pub(crate) fn put_entries(
    alloc: Global,
    text: &mut Vec<u8>,
    sides: &Sides,
    covers: &Covers,
) -> Result<Vec<u64>, Memory>
    ensures { IfOk result (λ reaches. PutsCovers (sides_in sides.now) (entry_claim (sides_in sides.now)) 101 rules_named (length sides.now.table.now.entries.items + 1) text.old.items text.new.items reaches.items) }
{
    let mut reaches = Vec::new(alloc);
    for place in 0..sides.entry_count() + 1 {
        let steps = covers.steps(place as usize);
        let reach = put_entry_at(alloc, text, sides, place, steps)?;
        reaches.push(reach)?;
    }
    Ok(reaches)
}

/// Puts the line of the rule at the place behind the text, with these steps if they are a cover, and gives how many of the
/// first entries its cover reaches.
fn put_rule_at(
    alloc: Global,
    text: &mut Vec<u8>,
    sides: &Sides,
    place: u32,
    steps: &[Step],
) -> Result<u64, Memory>
    ensures { IfOk result (λ reach. PutsCover (sides_in sides.now) (rule_claim (sides_in sides.now) place) 114 entries_named text.old.items text.new.items reach) }
{
    if is_cover(alloc, sides, &rule_task(sides, place), steps)? {
        put_rule(text, steps)?;
        return Ok(entries_named(steps));
    }
    let entries = sides.entry_count();
    put_rule(text, &[Step::InEntry(entries)])?;
    Ok(u64::from(entries) + 1)
}

/// Puts the lines of all rules behind the text, and gives for each how many of the first entries its cover reaches.
pub(crate) fn put_rules(
    alloc: Global,
    text: &mut Vec<u8>,
    sides: &Sides,
    covers: &Covers,
) -> Result<Vec<u64>, Memory>
    ensures { IfOk result (λ reaches. PutsCovers (sides_in sides.now) (rule_claim (sides_in sides.now)) 114 entries_named (length sides.now.list.now.rules.items + 1) text.old.items text.new.items reaches.items) }
{
    let mut reaches = Vec::new(alloc);
    for place in 0..sides.rule_count() + 1 {
        let steps = covers.steps(place as usize);
        let reach = put_rule_at(alloc, text, sides, place, steps)?;
        reaches.push(reach)?;
    }
    Ok(reaches)
}
