//! Drawing one rule.
ghost use Rattle.std.specs.Prelude.{◌<◌, length, IfOk, OnOk};
ghost use Rattle.razor_limits.specs.declared.limits.TheConstants.{MOST_ENTRIES};
ghost use Rattle.list_generator.specs.Growing.{AddsDrawn, IsDrawn};

use crate::draws::Draws;
use crate::sets::{addresses, decision, destination_ports, ports, protocols, source_ports};
use field_boxes::{Decisions, Rule};
use razor_limits::Memory;

/// The next rule, whose decision is numbered among the names.
fn draw_rule(draws: &mut Draws, names: &mut Decisions) -> Result<Rule, Memory>
    requires { length names.old < MOST_ENTRIES }
    ensures { IfOk result (λ rule. IsDrawn draws.old.state names.old draws.new.state names.new rule) }
{
    let source = addresses(draws.draw());
    let destination = addresses(draws.draw());
    let source_port = ports(source_ports(draws.draw()));
    let destination_port = ports(destination_ports(draws.draw()));
    let protocol = protocols(draws.draw());
    let decision = names.intern(decision(draws.draw()))?;
    Ok(Rule {
        source,
        destination,
        ports: [source_port, destination_port],
        protocol,
        decision,
    })
}

/// Puts the next rule behind the others.
pub(crate) fn add_drawn(
    draws: &mut Draws,
    names: &mut Decisions,
    rules: &mut Vec<Rule>,
) -> Result<(), Memory>
    requires { length names.old < MOST_ENTRIES }
    ensures { OnOk result (AddsDrawn draws.old.state names.old rules.old.items draws.new.state names.new rules.new.items) }
{
    let rule = draw_rule(draws, names)?;
    rules.extend_from_slice(&[rule])?;
    Ok(())
}
