//! The entries of a table that is read, one after another.
ghost use Rattle.std.specs.Prelude.{◌≡◌, ◌≤◌, ◌<◌, ℕ, length, map, vec_len, All, IfOk, IsTrue, OnOk};
ghost use Rattle.razor_limits.specs.declared.limits.TheConstants.{MOST_ENTRIES};
ghost use Rattle.field_boxes.specs.Names.{name_at};
ghost use Rattle.ternary_words.specs.Limits.{AreNumbered};
ghost use Rattle.ternary_words.specs.Views.{entry_of};
ghost use Rattle.table_text.specs.Names.{decided, is_decision, is_name};
ghost use Rattle.table_text.specs.Seen.{names_seen, with_decided};

use crate::names::is_miss;
use field_boxes::Decisions;
use razor_base::Memory;
use std::alloc::Global;
use ternary_words::{Entry, Word};

/// The entries read so far, and the names of their decisions in first-seen order.
#[derive(Drop)]
pub struct Entries {
    pub entries: Vec<Entry>,
    pub names: Decisions,
    pub ghost few: { vec_len entries ≤ MOST_ENTRIES },
    pub ghost fewer_names: { length names ≤ vec_len entries },
    pub ghost numbered: { AreNumbered (length names) entries.items },
    pub ghost seen: { names_seen (map (entry_of names) entries.items) ≡ names },
    pub ghost named: { All (λ name. IsTrue (is_name name)) names },
}

impl Entries {
    ghost use Rattle.std.specs.Prelude.{◌≡◌, ◌<◌, ◌+◌, ◌∷◌, [], ◌++◌, OnOk};
    ghost use Rattle.ternary_words.specs.Views.{word_of};
    ghost use Rattle.table_text.specs.EntriesViews.{entries_view};
    ghost use Rattle.table_text.specs.Names.{decided};

    /// No entry.
    pub fn new(alloc: Global) -> Self
        ensures entries { entries_view result ≡ [] }
        ensures none { vec_len result.entries ≡ 0 }
    {
        Entries {
            entries: Vec::new(alloc),
            names: Decisions::new(alloc),
        }
    }

    /// With an entry behind the others, and its decision among the names.
    pub fn with_entry(self, word: Word, decision: &str) -> Result<Self, Memory>
        requires room { vec_len self.entries < MOST_ENTRIES }
        requires named { IsTrue (is_decision decision.now) }
        ensures entries { IfOk result (λ entries. entries_view entries
            ≡ entries_view self ++ record { word = word_of word; decision = decided decision.now } ∷ []) }
        ensures one_more { IfOk result (λ entries. vec_len entries.entries ≡ vec_len self.entries + 1) }
    {
        let Entries {
            mut entries,
            mut names,
        } = self;
        let number = number_of(&mut names, decision)?;
        entries.push(Entry {
            word,
            decision: number,
        })?;
        Ok(Entries { entries, names })
    }
}

/// The number of the decision, which is put among the names.
fn number_of(names: &mut Decisions, decision: &str) -> Result<u32, Memory>
    requires { length names.old < MOST_ENTRIES }
    ensures names { OnOk result (names.new ≡ with_decided names.old (decided decision.now)) }
    ensures number { IfOk result (λ n. name_at names.new n ≡ decided decision.now) }
    ensures within { IfOk result (λ n. n ≤ length names.new) }
    ensures kept { (k : ℕ) → k ≤ length names.old → name_at names.new k ≡ name_at names.old k }
{
    if is_miss(decision.as_bytes()) {
        return Ok(0);
    }
    names.intern(decision)
}
