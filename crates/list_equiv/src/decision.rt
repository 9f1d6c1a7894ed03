//! What rules decide on one header.
ghost use Rattle.std.specs.Prelude.{◌≡◌, find, option_copied};
ghost use Rattle.field_boxes.specs.Headline.Fields.{stated};
ghost use Rattle.field_boxes.specs.Headline.Classifier.{matches};
ghost use Rattle.field_boxes.specs.Rules.{rule_of};
ghost use Rattle.fdd_build.specs.Rules.{decided};

use field_boxes::{Header, Rule};

/// The number that the rules decide on the header: 0 for none.
pub(crate) fn decision(rules: &[Rule], header: &Header) -> u32
    ensures { result ≡ decided stated rules.now header.now.values }
{
    match first_rule(rules, header) {
        Some(rule) => rule.decision,
        None => 0,
    }
}

/// The first rule that holds the header.
fn first_rule<'a>(rules: &'a [Rule], header: &Header) -> Option<&'a Rule>
    ensures { option_copied result ≡ find (λ rule. matches stated header.now.values (rule_of rule)) rules.now }
{
    rules.iter().find(|rule| rule.holds(header))
}
