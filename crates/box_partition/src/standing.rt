//! Rules that stand for the rules of a list and for the entries of a table.
ghost use Rattle.std.specs.Prelude.{◌≡◌, ◌≤◌, ℕ, [], ◌∷◌, ◌++◌, length, IfOk};
ghost use Rattle.razor_limits.specs.declared.limits.TheConstants.{GREATEST_PORT, MOST_ENTRIES, MOST_RULES};
ghost use Rattle.field_boxes.specs.Headline.Classifier.{union_holds};
ghost use Rattle.field_boxes.specs.Rules.{sets_of};
ghost use Rattle.field_boxes.specs.Spans.{interval_of};
ghost use Rattle.ternary_words.specs.Prefixes.{IsPrefixInEach};
ghost use Rattle.ternary_words.specs.Views.{word_of};
ghost use Rattle.ternary_words.specs.Headline.Word.{agrees, header_bits};
ghost use Rattle.partition_check.specs.Claims.{rule_matches, entry_matches};
ghost use Rattle.partition_check.specs.PrefixWords.{ArePrefixes};
ghost use Rattle.box_partition.specs.Standing.{Matches, StandFor, counted, own_number};

use field_boxes::{Ports, Rule, Span};
use razor_base::Memory;
use std::alloc::Global;
use ternary_words::{Entry, Word};

/// The rule with another decision.
fn with_decision(rule: &Rule, decision: u32) -> Rule
    ensures sets { sets_of result ≡ sets_of rule.now }
    ensures decision { result.decision ≡ decision }
{
    Rule {
        source: rule.source,
        destination: rule.destination,
        ports: rule.ports,
        protocol: rule.protocol,
        decision,
    }
}

/// The ports of one span.
fn ports_of(span: Span) -> Ports
    requires { span.hi ≤ GREATEST_PORT }
    ensures { (v : ℕ) → union_holds v result ≡ union_holds v (interval_of span ∷ []) }
{
    match Ports::of(&[span]) {
        Some(ports) => ports,
        None => unreachable!(),
    }
}

/// The rule that matches the headers which the word matches.
fn word_rule(word: &Word, decision: u32) -> Rule
    requires { IsPrefixInEach (word_of word.now) }
    ensures matched { Matches (λ header. agrees (word_of word.now) (header_bits header)) result }
    ensures decision { result.decision ≡ decision }
{
    let Some(spans) = word.spans() else {
        unreachable!();
    };
    let [source, destination, source_port, destination_port, protocol] = spans;
    Rule {
        source,
        destination,
        ports: [ports_of(source_port), ports_of(destination_port)],
        protocol,
        decision,
    }
}

/// Puts a rule behind the others.
fn put_rule(rules: &mut Vec<Rule>, rule: Rule) -> Result<(), Memory>
    ensures { IfOk result (λ _. rules.new.items ≡ rules.old.items ++ rule ∷ []) }
{
    rules.extend_from_slice(&[rule])?;
    Ok(())
}

/// The rules, which decide their places, counted from 1.
pub(crate) fn rules_by_place(alloc: Global, rules: &[Rule]) -> Result<Vec<Rule>, Memory>
    requires { length rules.now ≤ MOST_RULES }
    ensures { IfOk result (λ standing. StandFor rule_matches counted rules.now standing.items) }
{
    let mut standing = Vec::new(alloc);
    for (place, rule) in rules.iter().enumerate() {
        put_rule(&mut standing, with_decision(rule, place as u32 + 1))?;
    }
    Ok(standing)
}

/// The entries as rules, which decide their places, counted from 1.
pub(crate) fn entries_by_place(alloc: Global, entries: &[Entry]) -> Result<Vec<Rule>, Memory>
    requires few { length entries.now ≤ MOST_ENTRIES }
    requires prefixes { ArePrefixes entries.now }
    ensures { IfOk result (λ standing. StandFor entry_matches counted entries.now standing.items) }
{
    let mut standing = Vec::new(alloc);
    for (place, entry) in entries.iter().enumerate() {
        put_rule(&mut standing, word_rule(&entry.word, place as u32 + 1))?;
    }
    Ok(standing)
}

/// The entries as rules, which decide the same numbers.
pub(crate) fn entries_by_number(alloc: Global, entries: &[Entry]) -> Result<Vec<Rule>, Memory>
    requires { ArePrefixes entries.now }
    ensures { IfOk result (λ standing. StandFor entry_matches own_number entries.now standing.items) }
{
    let mut standing = Vec::new(alloc);
    for entry in entries {
        put_rule(&mut standing, word_rule(&entry.word, entry.decision))?;
    }
    Ok(standing)
}
