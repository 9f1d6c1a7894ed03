//! Laws of the definitions, for whoever relies on them. The functions do nothing.
ghost use Rattle.std.specs.Prelude.{◌≡◌, ℕ, List, map};
ghost use Rattle.field_boxes.specs.Headline.Fields.{IsHeader, stated};
ghost use Rattle.field_boxes.specs.declared.prefix.Prefix.{Prefix};
ghost use Rattle.ternary_words.specs.Prefixes.{FitFields, all_hold, fields_trits};
ghost use Rattle.ternary_words.specs.Headline.Table.{answer};
ghost use Rattle.ternary_words.specs.Headline.Word.{agrees, header_bits};
ghost use Rattle.ternary_words.specs.Views.{decided_at, entry_of, first_match};
ghost use Rattle.ternary_words.specs.declared.entry.Entry.{Entry};

/// What the entry at the first matching place decides is what the table answers.
pub fn first_match_answers()
    ensures { (names : List (List ℕ)) (values : List ℕ) (entries : List Entry) →
        decided_at names entries (first_match values entries) ≡ answer (map (entry_of names) entries) values }
{}

/// A word of five prefixes matches the headers whose values the prefixes hold.
pub fn prefixes_match()
    ensures { (prefixes : List Prefix) (values : List ℕ) → FitFields stated prefixes → IsHeader values →
        agrees (fields_trits stated prefixes) (header_bits values) ≡ all_hold stated prefixes values }
{}
