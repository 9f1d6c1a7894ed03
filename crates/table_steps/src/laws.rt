//! Laws. The functions do nothing.
ghost use Rattle.std.specs.Prelude.{◌≤◌, ℕ, List, All, length};
ghost use Rattle.ternary_words.specs.Entries.{IsPart};
ghost use Rattle.ternary_words.specs.Limits.{AreNumbered};
ghost use Rattle.ternary_words.specs.Prefixes.{IsPrefixInEach};
ghost use Rattle.ternary_words.specs.Views.{word_of};
ghost use Rattle.ternary_words.specs.declared.entry.Entry.{Entry};

/// A part of a table keeps what holds of each entry, has no more entries, and its parts are parts of the table.
pub fn parts()
    ensures numbered { (count : ℕ) (some all : List Entry) → IsPart some all → AreNumbered count all → AreNumbered count some }
    ensures prefixes { (some all : List Entry) → IsPart some all →
        All (λ e. IsPrefixInEach (word_of e.word)) all → All (λ e. IsPrefixInEach (word_of e.word)) some }
    ensures fewer { (some all : List Entry) → IsPart some all → length some ≤ length all }
    ensures whole { (all : List Entry) → IsPart all all }
    ensures again { (fewer some all : List Entry) → IsPart fewer some → IsPart some all → IsPart fewer all }
{}
