//! The rule of a line.
ghost use Rattle.std.specs.Prelude.{◌≡◌, ◌≢◌, IfOk, OnOk};
ghost use Rattle.razor_limits.specs.declared.limits.TheConstants.{MOST_RULES};
ghost use Rattle.filter_reader.specs.LineRules.{IsLineRule, spelled_line};
ghost use Rattle.filter_reader.specs.Headline.RuleLine.{rule_line, rule_of_tokens};
ghost use Rattle.filter_reader.specs.Headline.Tokens.{tokens};

use crate::address::{destination_column, source_column};
use crate::decision::{decision_column, end_of_line};
use crate::flags::flags_column;
use crate::port::port_column;
use crate::protocol::protocol_column;
use crate::reason::Reason;
use field_boxes::{Ports, Span};
use razor_base::limits::MOST_RULES;
use text_lines::is_ascii_line;

/// What a rule line spells.
///
/// The addresses of a span are those that agree in some number of their first bits, and its protocols are
/// one or all.
#[derive(Clone, Copy)]
pub struct LineRule<'a> {
    pub source: Span,
    pub destination: Span,
    /// The ports of the source and those of the destination.
    pub ports: [Ports; 2],
    pub protocol: Span,
    /// The decision word, where the line has one.
    pub word: Option<&'a str>,
    /// Whether the line has flags whose mask isn't 0.
    pub flagged: bool,
}

/// The rule that the columns of the line spell, or the first reason why they are bad.
#[tactic(auto, unfolding(crate::specs::Headline::RuleLine::rule_of_tokens))]
fn rule_of_columns(line: &[u8]) -> Result<LineRule<'_>, Reason>
    ensures read { spelled_line result ≡ rule_of_tokens (tokens line.now) }
    ensures rule { IfOk result IsLineRule }
{
    let (source, rest) = source_column(line)?;
    let (destination, rest) = destination_column(rest)?;
    let (source_ports, rest) = match port_column(rest) {
        Ok((ports, rest)) => (ports, rest),
        Err(reason) => return Err(reason),
    };
    let (destination_ports, rest) = match port_column(rest) {
        Ok((ports, rest)) => (ports, rest),
        Err(reason) => return Err(reason),
    };
    let (protocol, rest) = protocol_column(rest)?;
    let (flagged, rest) = flags_column(rest)?;
    let (word, rest) = decision_column(rest)?;
    end_of_line(rest)?;
    Ok(LineRule {
        source: source.span(32),
        destination: destination.span(32),
        ports: [source_ports, destination_ports],
        protocol,
        word,
        flagged,
    })
}

/// The rule that a line spells that isn't skipped, with so many rules before it, at most 65,536; else the
/// first reason why the line is bad.
///
/// The line is without the end of its line, and behind 65,536 rules it is one too many, whatever it spells.
/// It takes time linear in the bytes, and no memory.
#[tactic(auto, unfolding(crate::specs::Headline::RuleLine::rule_line))]
pub fn rule_of_line(line: &[u8], before: usize) -> Result<LineRule<'_>, Reason>
    ensures read { spelled_line result ≡ rule_line before line.now }
    ensures rule { IfOk result IsLineRule }
    ensures room { OnOk result (before ≢ MOST_RULES) }
{
    if before == MOST_RULES as usize {
        return Err(Reason::TooManyRules);
    }
    if !is_ascii_line(line) {
        return Err(Reason::NotAscii);
    }
    rule_of_columns(line)
}
