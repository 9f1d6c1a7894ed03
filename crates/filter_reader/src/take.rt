//! Taking the next line of a list.
ghost use Rattle.std.specs.Prelude.{◌≡◌, ◌≤◌, ◌<◌, ◌+◌, ℕ, length, vec_len, IfOk, IfSome, IsTrue, OnOk, OnErr, Some, option_copied, unwrap_or};
ghost use Rattle.razor_limits.specs.declared.limits.TheConstants.{MOST_RULES, MOST_ENTRIES};
ghost use Rattle.field_boxes.specs.Names.{is_decision_word, name_at, with_name};
ghost use Rattle.filter_reader.specs.Headline.FilterList.{own_name};
ghost use Rattle.filter_reader.specs.Growing.{IsListSoFar};
ghost use Rattle.filter_reader.specs.LineRules.{IsLineRule, spelled_rule};
ghost use Rattle.filter_reader.specs.Reading.{read_so_far, with_rule};

use crate::line::{LineRule, rule_of_line};
use crate::reason::Reason;
use field_boxes::{Decisions, Rule};
use razor_base::Memory;
use std::alloc::Global;
use text_lines::{LineError, TakeLine};

/// The number of the decision word, or where there is none of the name `#k` of rule k.
fn number_of_decision(
    alloc: Global,
    word: Option<&str>,
    rule: u64,
    names: &mut Decisions,
) -> Result<u32, Memory>
    requires word { IfSome word (λ w. IsTrue (is_decision_word w.now)) }
    requires rule { rule ≤ MOST_RULES }
    requires room { length names.old < MOST_ENTRIES }
    ensures names { OnOk result (names.new ≡ with_name names.old (unwrap_or (option_copied word.entry) (own_name rule))) }
    ensures number { IfOk result (λ n. name_at names.new n ≡ Some (unwrap_or (option_copied word.entry) (own_name rule))) }
    ensures within { IfOk result (λ n. (0 < n) × (n ≤ length names.new)) }
    ensures kept { (k : ℕ) → k ≤ length names.old → name_at names.new k ≡ name_at names.old k }
    ensures err { OnErr result (names.new ≡ names.old) }
{
    match word {
        Some(word) => names.intern(word),
        None => {
            let name = format!(in alloc; "#{rule}")?;
            names.intern(name.as_str())
        }
    }
}

/// Puts the rule behind the others, its decision among the names, and counts its flag.
fn add_rule(
    alloc: Global,
    rule: LineRule<'_>,
    rules: &mut Vec<Rule>,
    names: &mut Decisions,
    flagged: &mut u64,
) -> Result<(), Memory>
    requires rule { IsLineRule rule }
    requires room { vec_len rules.old < MOST_RULES }
    requires so_far { IsListSoFar names.old rules.old.items flagged.old }
    ensures read { OnOk result (read_so_far names.new rules.new.items flagged.new ≡ with_rule (read_so_far names.old rules.old.items flagged.old) (spelled_rule rule.entry)) }
    ensures so_far { OnOk result (IsListSoFar names.new rules.new.items flagged.new) }
{
    let number = rules.len() as u64 + 1;
    let decision = number_of_decision(alloc, rule.word, number, names)?;
    rules.push(Rule {
        source: rule.source,
        destination: rule.destination,
        ports: rule.ports,
        protocol: rule.protocol,
        decision,
    })?;
    *flagged += u64::from(rule.flagged);
    Ok(())
}

/// The rules that were read so far, the names of their decisions, and how many are flagged.
#[derive(Drop)]
pub(crate) struct ListLines {
    pub(crate) alloc: Global,
    pub(crate) rules: Vec<Rule>,
    pub(crate) names: Decisions,
    pub(crate) flagged: u64,
}

impl TakeLine for ListLines {
    type Reason = Reason;

    ghost use Rattle.field_boxes.specs.Headline.FilterList.{FilterList};
    ghost use Rattle.filter_reader.specs.Headline.FilterList.{with_line};
    ghost use Rattle.filter_reader.specs.Growing.{IsListSoFar};
    ghost use Rattle.filter_reader.specs.Reading.{read_so_far};

    ghost Given = { Unit {0} };

    ghost given = { λ _. tt };

    ghost Read = { FilterList };

    ghost read = { λ l. read_so_far l.names l.rules.items l.flagged };

    ghost step = { λ _. with_line };

    ghost is_sound = { λ l. IsListSoFar l.names l.rules.items l.flagged };

    /// Its rule goes behind the others.
    fn take_line(&mut self, line: &[u8]) -> Result<(), LineError<Reason>> {
        let rule = match rule_of_line(line, self.rules.len()) {
            Ok(rule) => rule,
            Err(reason) => return Err(LineError::Bad(reason)),
        };
        let rules = &mut self.rules;
        match add_rule(self.alloc, rule, rules, &mut self.names, &mut self.flagged) {
            Ok(()) => Ok(()),
            Err(_refused) => Err(LineError::Memory),
        }
    }
}
