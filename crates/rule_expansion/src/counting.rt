//! How many entries rules come to.
ghost use Rattle.std.specs.Prelude.{◌≡◌, ◌≤◌, ◌^◌, length, map};
ghost use Rattle.razor_limits.specs.declared.limits.TheConstants.{MOST_RULES};
ghost use Rattle.field_boxes.specs.Rules.{rule_of};
ghost use Rattle.field_boxes.specs.Headline.Fields.{stated};
ghost use Rattle.rule_expansion.specs.Expansion.{covers, expanded_count, product_of_lengths};

use crate::sets::set_count;
use field_boxes::Rule;

/// How many entries the rules come to: for each rule the product of the lengths of its five covers.
///
/// It takes no memory.
pub fn entry_count(rules: &[Rule]) -> u128
    requires { length rules.now ≤ MOST_RULES }
    ensures { result ≡ expanded_count (map rule_of rules.now) }
{
    let mut count = 0;
    for rule in rules {
        count += rule_count(rule);
    }
    count
}

/// How many entries the rule comes to.
fn rule_count(rule: &Rule) -> u128
    ensures count { result ≡ product_of_lengths (covers stated (rule_of rule.now)) }
    ensures few { result ≤ 2 ^ 50 }
{
    let addresses = u128::from(set_count(rule, 0)) * u128::from(set_count(rule, 1));
    let ports = u128::from(set_count(rule, 2)) * u128::from(set_count(rule, 3));
    addresses * ports * u128::from(set_count(rule, 4))
}
