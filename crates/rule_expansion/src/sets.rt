//! The cover of one set of a rule.
ghost use Rattle.std.specs.Prelude.{◌≡◌, ◌<◌, ◌≤◌, length, All, OnOk};
ghost use Rattle.field_boxes.specs.Headline.Classifier.{set_holds};
ghost use Rattle.field_boxes.specs.Headline.Fields.{width};
ghost use Rattle.field_boxes.specs.Headline.Prefix.{FitsWidth};
ghost use Rattle.field_boxes.specs.Rules.{rule_of};
ghost use Rattle.range_prefix.specs.Shortest.{shortest_cover};

use field_boxes::{Prefix, Rule, width};
use range_prefix::{count_all, cover_all_into};
use razor_limits::Memory;

/// Makes the list the shortest cover of the rule's set of the field, in place of what it holds.
pub(crate) fn cover_set(rule: &Rule, field: usize, list: &mut Vec<Prefix>) -> Result<(), Memory>
    requires { field < 5 }
    ensures cover { OnOk result (list.new.items ≡ shortest_cover (width field) (λ v. set_holds field v (rule_of rule.now))) }
    ensures fit { OnOk result (All (FitsWidth (width field)) list.new.items) }
{
    let sets = rule.sets();
    cover_all_into(sets[field], width(field), list)
}

/// The length of the shortest cover of the rule's set of the field.
pub(crate) fn set_count(rule: &Rule, field: usize) -> u32
    requires { field < 5 }
    ensures count { result ≡ length (shortest_cover (width field) (λ v. set_holds field v (rule_of rule.now))) }
    ensures few { result ≤ 992 }
{
    let sets = rule.sets();
    count_all(sets[field], width(field))
}
