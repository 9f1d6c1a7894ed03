//! A list of rules, with the names of its decisions.
ghost use Rattle.std.specs.Prelude.{◌≤◌, vec_len, All};
ghost use Rattle.razor_limits.specs.declared.limits.TheConstants.{MOST_RULES};
ghost use Rattle.field_boxes.specs.NamedRules.{IsNumberedBy};
ghost use Rattle.field_boxes.specs.FilterRules.{IsFilterRule};

use crate::decisions::Decisions;
use crate::rule::Rule;

/// The rules of a filter list, the names of their decisions, and how many rules are flagged.
///
/// There are at most 65,536 rules. The addresses of a rule are those that agree in some number of their
/// first bits, its protocols are one or all, and its decision is the number of a name.
#[derive(Drop)]
pub struct RuleList {
    pub rules: Vec<Rule>,
    pub names: Decisions,
    pub flagged: u64,
    pub ghost few: { vec_len rules ≤ MOST_RULES },
    pub ghost spelled: { All IsFilterRule rules.items },
    pub ghost numbered: { All (IsNumberedBy names) rules.items },
}
