//! Laws of the definitions, for whoever relies on them. The functions do nothing.
ghost use Rattle.std.specs.Prelude.{◌≡◌, ◌≤◌, ℕ, List, All, Ok, length, map};
ghost use Rattle.razor_limits.specs.declared.limits.TheConstants.{GREATEST_PORT, MOST_RULES};
ghost use Rattle.field_boxes.specs.Headline.Classifier.{Interval, union_holds};
ghost use Rattle.field_boxes.specs.NamedRules.{named_rules};
ghost use Rattle.field_boxes.specs.Unions.{RiseApart};
ghost use Rattle.field_boxes.specs.declared.rule.Rule.{Rule};
ghost use Rattle.filter_reader.specs.Headline.FilterList.{list_of};
ghost use Rattle.field_boxes.specs.FilterRules.{IsFilterRule};
ghost use Rattle.filter_reader.specs.FirstSeen.{first_seen};
ghost use Rattle.filter_reader.specs.ListText.{list_text};
ghost use Rattle.field_boxes.specs.Lists.{filter_list};
ghost use Rattle.filter_reader.specs.OwnNames.{HaveNames};
ghost use Rattle.filter_reader.specs.Headline.Ports.{ports_of};
ghost use Rattle.field_boxes.specs.declared.rule_list.RuleList.{RuleList};

/// The ports that ranges come to are those in one of the ranges, as intervals between which ports are
/// missing.
pub fn ports_are_those_of_the_ranges()
    ensures { (ranges set : List Interval) → ports_of ranges ≡ Ok set → RiseApart 0 GREATEST_PORT set × ((v : ℕ) → union_holds v set ≡ union_holds v ranges) }
{}

/// The text of rules spells the same sets and the same names, and no flags, where each rule is named by a
/// decision word or by its own number.
pub fn written_rules_are_read()
    ensures { (names : List (List ℕ)) (rules : List Rule) → All IsFilterRule rules → length rules ≤ MOST_RULES → HaveNames 1 (named_rules names rules) →
        list_of (list_text (named_rules names rules)) ≡ Ok (record { rules = named_rules names rules; flagged = 0 }) }
{}

/// Two lists with the same rules have the same numbers, where in each the names are those of its rules in
/// the order in which they are first seen.
pub fn numbers_follow_names()
    ensures { (a b : RuleList) → a.names ≡ first_seen (filter_list a).rules → b.names ≡ first_seen (filter_list b).rules → (filter_list a).rules ≡ (filter_list b).rules →
        (a.names ≡ b.names) × (map (λ rule. rule.decision) a.rules.items ≡ map (λ rule. rule.decision) b.rules.items) }
{}
