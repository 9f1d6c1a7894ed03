//! The covers of a rule's five sets.
ghost use Rattle.std.specs.Prelude.{◌≡◌, OnOk};
ghost use Rattle.field_boxes.specs.Headline.Fields.{stated};
ghost use Rattle.field_boxes.specs.Rules.{rule_of};
ghost use Rattle.rule_expansion.specs.Entries.{FitCovers, prefixes_of};
ghost use Rattle.rule_expansion.specs.Expansion.{covers};

use crate::sets::cover_set;
use field_boxes::{Prefix, Rule};
use razor_limits::Memory;

/// Makes the five lists the shortest covers of the rule's five sets, in place of what they hold.
pub(crate) fn cover_rule(rule: &Rule, lists: &mut [Vec<Prefix>; 5]) -> Result<(), Memory>
    ensures covers { OnOk result (prefixes_of lists.new ≡ covers stated (rule_of rule.now)) }
    ensures fit { OnOk result (FitCovers stated (prefixes_of lists.new)) }
{
    cover_set(rule, 0, &mut lists[0])?;
    cover_set(rule, 1, &mut lists[1])?;
    cover_set(rule, 2, &mut lists[2])?;
    cover_set(rule, 3, &mut lists[3])?;
    cover_set(rule, 4, &mut lists[4])
}
