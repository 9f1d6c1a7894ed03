//! Laws of the definitions, for whoever relies on them. The functions do nothing.
ghost use Rattle.std.specs.Prelude.{◌≡◌, ℕ, List, All, length, map};
ghost use Rattle.field_boxes.specs.declared.rule.Rule as code;
ghost use Rattle.field_boxes.specs.NamedRules.{IsNumberedBy, named_rules};
ghost use Rattle.field_boxes.specs.Rules.{rule_of};
ghost use Rattle.ternary_words.specs.declared.entry.Entry as code_entry;
ghost use Rattle.field_boxes.specs.Headline.Fields.{IsHeader, stated};
ghost use Rattle.field_boxes.specs.Headline.Classifier.{Rule, source};
ghost use Rattle.ternary_words.specs.Prefixes.{IsPrefixInEach};
ghost use Rattle.ternary_words.specs.Headline.Table.{answer};
ghost use Rattle.ternary_words.specs.Views.{word_of};
ghost use Rattle.rule_expansion.specs.Entries.{decided_of, AreEntriesOf};
ghost use Rattle.rule_expansion.specs.Expansion.{expansion, expanded_count, decided_words};

use range_prefix::laws::halving_is_shortest;
use ternary_words::laws::prefixes_match;

/// The first matching entry of an expansion decides as the first matching rule.
pub fn expansion_answers()
    ensures { (rules : List (Rule (List ℕ))) (values : List ℕ) → IsHeader values → answer (expansion rules) values ≡ source stated values rules }
{
    halving_is_shortest();
    prefixes_match();
}

/// An expansion has as many entries as are counted.
pub fn expansion_is_counted()
    ensures { (rules : List (Rule (List ℕ))) → length (expansion rules) ≡ expanded_count rules }
{}

/// How many entries rules come to has nothing to do with the names of their decisions.
pub fn names_count_alike()
    ensures { (names : List (List ℕ)) (rules : List code.Rule) → expanded_count (map rule_of rules) ≡ expanded_count (named_rules names rules) }
{}

/// What the words of rules with numbers decide, by name: the entries of the rules with names, as many as
/// are counted.
pub fn decided_words_are_entries()
    ensures { (names : List (List ℕ)) (rules : List code.Rule) (entries : List code_entry.Entry) →
        map decided_of entries ≡ decided_words (map rule_of rules) → All (IsNumberedBy names) rules → AreEntriesOf names rules entries }
{}

/// The words of rules are prefixes in each field.
pub fn decided_words_are_prefixes()
    ensures { (rules : List code.Rule) (entries : List code_entry.Entry) →
        map decided_of entries ≡ decided_words (map rule_of rules) → All (λ e. IsPrefixInEach (word_of e.word)) entries }
{
    halving_is_shortest();
}
