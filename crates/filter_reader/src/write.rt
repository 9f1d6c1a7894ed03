//! Writing a filter list.
ghost use Rattle.std.specs.Prelude.{◌≡◌, Ok, All};
ghost use Rattle.razor_base.specs.Output.{Puts, Writes};
ghost use Rattle.field_boxes.specs.NamedRules.{IsNumberedBy, named_rules};
ghost use Rattle.filter_reader.specs.Headline.FilterList.{list_of};
ghost use Rattle.filter_reader.specs.ListText.{list_text};
ghost use Rattle.field_boxes.specs.Lists.{filter_list};
ghost use Rattle.filter_reader.specs.OwnNames.{HaveNames};

use crate::rule_text::put_rule;
use field_boxes::{Decisions, Rule, RuleList};
use razor_base::{Failed, Pending, Sink};

/// Writes the list as a text, one line a rule, in large pieces and without taking memory.
///
/// The name of each rule is a decision word, or `#k` for rule k alone, as in every list that was read. The
/// text has no flags; reading it gives the same sets and the same names.
#[inline(never)]
pub fn write_list<K: Sink>(list: &RuleList, out: &mut K) -> Result<(), Failed>
    requires { HaveNames 1 (filter_list list.now).rules }
    ensures written { Writes K.written K.faults out.old out.new (list_text (filter_list list.now).rules) result }
    ensures spelled { list_of (list_text (filter_list list.now).rules) ≡ Ok (record { rules = (filter_list list.now).rules; flagged = 0 }) }
{
    let mut pending = Pending::new();
    put_rules(&list.rules, &list.names, &mut pending, out)?;
    pending.flush(out)
}

/// Puts a line for each rule.
fn put_rules<K: Sink>(
    rules: &[Rule],
    names: &Decisions,
    pending: &mut Pending,
    out: &mut K,
) -> Result<(), Failed>
    requires { All (IsNumberedBy names.now) rules.now }
    ensures { Puts K.written K.faults out.old out.new pending.old pending.new (list_text (named_rules names.now rules.now)) result }
{
    for rule in rules {
        put_rule(rule, names, pending, out)?;
    }
    Ok(())
}
