//! Rules with numbers that the names of two sides have in common.
ghost use Rattle.std.specs.Prelude.{◌≡◌, ◌≤◌, ℕ, List, length, map, IfOk};
ghost use Rattle.field_boxes.specs.Headline.Fields.{stated, IsHeader};
ghost use Rattle.field_boxes.specs.Rules.{rule_of};
ghost use Rattle.fdd_build.specs.Rules.{decided};
ghost use Rattle.list_equiv.specs.Names.{AreWithin, common_number, common_rule};

use field_boxes::{Decisions, Rule};
use razor_limits::Memory;
use std::alloc::Global;

/// The common number of no name.
const NO_NAME: u32 = 1;

/// The common number of a decision: one more than the number of its name among the others, and a number
/// above theirs where they don't have it.
fn common_number(names: &Decisions, others: &Decisions, decision: u32) -> u32
    requires { decision ≤ length names.now }
    ensures { result ≡ common_number names.now others.now decision }
{
    names.are_names();
    others.are_names();
    match others.number(names.name(decision)) {
        Some(number) => number + 1,
        None => others.count() + decision + 1,
    }
}

/// The rules, which decide the common numbers of their names.
fn renumbered(
    alloc: Global,
    rules: &[Rule],
    names: &Decisions,
    others: &Decisions,
) -> Result<Vec<Rule>, Memory>
    requires { AreWithin names.now rules.now }
    ensures { IfOk result (λ made. map rule_of made.items ≡ map (common_rule names.now others.now) rules.now) }
{
    let mut made = Vec::new(alloc);
    for rule in rules {
        let decision = common_number(names, others, rule.decision);
        made.push(Rule {
            source: rule.source,
            destination: rule.destination,
            ports: rule.ports,
            protocol: rule.protocol,
            decision,
        })?;
    }
    Ok(made)
}

/// Rules that decide on every header the common number of what the rules decide, that of no name where none
/// matches.
pub(crate) fn common_rules(
    alloc: Global,
    rules: &[Rule],
    names: &Decisions,
    others: &Decisions,
) -> Result<Vec<Rule>, Memory>
    requires { AreWithin names.now rules.now }
    ensures { IfOk result (λ made. (header : List ℕ) → IsHeader header →
        decided stated made.items header ≡ common_number names.now others.now (decided stated rules.now header)) }
{
    let mut made = renumbered(alloc, rules, names, others)?;
    made.extend_from_slice(&[Rule::open(NO_NAME)])?;
    Ok(made)
}
