//! The numbers of decisions, in a list of names that grows.
ghost use Rattle.std.specs.Prelude.{◌≡◌, ◌≤◌, length, IfOk, IsTrue};
ghost use Rattle.std.specs.Option.{option_map};
ghost use Rattle.field_boxes.specs.Names.{name_at};
ghost use Rattle.ternary_words.specs.Views.{entry_of};
ghost use Rattle.table_text.specs.EntryViews.{spelled_view};
ghost use Rattle.table_text.specs.Names.{decided, is_decision};
ghost use Rattle.memory_text.specs.Kept.{Extends, number_in};

use razor_base::Memory;
use slot_patch::Names;
use table_text::{Spelled, is_miss};
use ternary_words::Entry;

/// The number of the decision, which is put among the names.
pub(crate) fn number_of(names: &mut Names, decision: &str) -> Result<u32, Memory>
    requires { IsTrue (is_decision decision.now) }
    ensures number { IfOk result (λ n. name_at names.new n ≡ decided decision.now) }
    ensures within { IfOk result (λ n. n ≤ length names.new) }
    ensures extends { Extends names.old names.new }
{
    if is_miss(decision.as_bytes()) {
        return Ok(0);
    }
    names.number(decision)
}

/// The entry with the number of its decision, which is put among the names; none where there is no entry.
pub(crate) fn numbered(
    names: &mut Names,
    entry: Option<Spelled<'_>>,
) -> Result<Option<Entry>, Memory>
    ensures entry { IfOk result (λ made. option_map (entry_of names.new) made ≡ option_map spelled_view entry.entry) }
    ensures within { IfOk result (λ made. number_in made ≤ length names.new) }
    ensures extends { Extends names.old names.new }
{
    match entry {
        Some(spelled) => {
            let decision = number_of(names, spelled.decision)?;
            Ok(Some(Entry {
                word: spelled.word,
                decision,
            }))
        }
        None => Ok(None),
    }
}
