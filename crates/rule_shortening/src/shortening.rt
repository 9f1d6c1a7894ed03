//! The short table of rules.
ghost use Rattle.std.specs.Prelude.{◌≡◌, ◌≤◌, ◌<◌, All, IfOk, MatchOption, MatchResult, length, map};
ghost use Rattle.field_boxes.specs.NamedRules.{IsNumberedBy, named_rules};
ghost use Rattle.field_boxes.specs.Rules.{rule_of};
ghost use Rattle.razor_limits.specs.declared.limits.TheConstants.{MOST_ENTRIES, MOST_RULES};
ghost use Rattle.ternary_words.specs.Views.{table_of};
ghost use Rattle.rule_expansion.specs.Expansion.{expanded_count};
ghost use Rattle.rule_shortening.specs.Drafts.{AreFor, AreShortFor};
ghost use Rattle.rule_shortening.specs.Shortened.{IsRefused, IsShortTable};

use crate::draft::{drafted, in_full};
use crate::laying::Laying;
use crate::refusal::ShortenError;
use crate::searching::searched;
use crate::trimming::trim_for;
use field_boxes::{Decisions, Rule};
use razor_limits::Memory;
use rule_expansion::entry_count;
use rule_expansion::laws::{decided_words_are_entries, expansion_answers, names_count_alike};
use std::alloc::Global;
use ternary_words::{Entry, Limit, SlotWidth, Table};

/// The short table of the rules, which decides every header as they do, for slots of the width.
///
/// Its words are prefixes in each field, and of its entries none can go. There are at most as many as the direct expansion
/// has, mostly far fewer, and at most `limit`; `composed` is their number. A header that no rule matches is
/// matched by no entry, or by one that decides nothing, written `miss`.
///
/// It is refused only where the direct expansion has more than `limit` entries. The same rules give the same table. Time goes by
/// the search: a thousand rules take a second or less, 20,000 a minute.
pub fn shorten(
    alloc: Global,
    rules: &[Rule],
    names: &Decisions,
    limit: Limit,
    slot: SlotWidth,
) -> Result<Table, ShortenError>
    requires few { length rules.now ≤ MOST_RULES }
    requires numbered { All (IsNumberedBy names.now) rules.now }
    ensures table { MatchResult result
        (λ table. IsShortTable (named_rules names.now rules.now) limit.count slot.bits (table_of table))
        (λ e. IsRefused (named_rules names.now rules.now) limit.count e) }
    ensures names { IfOk result (λ table. table.names ≡ names.now) }
{
    names_count_alike();
    decided_words_are_entries();
    let limit = limit.count;
    let needed = entry_count(rules);
    let Some(entries) = short_entries(alloc, rules, names, limit)? else {
        return Err(ShortenError::TooMany { needed, limit });
    };
    if entries.len() > limit as usize {
        return Err(ShortenError::TooMany { needed, limit });
    }
    Ok(table_for(alloc, rules, names, slot, entries)?)
}

/// Short entries for the rules, each of which is needed; none only where the direct expansion has more entries than the limit.
fn short_entries(
    alloc: Global,
    rules: &[Rule],
    names: &Decisions,
    limit: u32,
) -> Result<Option<Vec<Entry>>, Memory>
    requires few { length rules.now ≤ MOST_RULES }
    requires numbered { All (IsNumberedBy names.now) rules.now }
    ensures { IfOk result (λ made. MatchOption made
        (limit < expanded_count (map rule_of rules.now))
        (λ entries. AreShortFor (length names.now) rules.now entries.items)) }
{
    let mut laying = Laying::new(alloc, rules)?;
    let Some(entries) = begun(alloc, rules, names, limit, &mut laying)? else {
        return Ok(None);
    };
    let start = laying.all(rules)?;
    let entries = searched(alloc, entries, start.as_slice(), names.count())?;
    Ok(Some(trim_for(alloc, rules, names, entries)?))
}

/// Entries for the rules to begin with; none only where the direct expansion has more entries than the limit.
fn begun(
    alloc: Global,
    rules: &[Rule],
    names: &Decisions,
    limit: u32,
    laying: &mut Laying,
) -> Result<Option<Vec<Entry>>, Memory>
    requires few { length rules.now ≤ MOST_RULES }
    requires numbered { All (IsNumberedBy names.now) rules.now }
    ensures { IfOk result (λ made. MatchOption made
        (limit < expanded_count (map rule_of rules.now))
        (λ entries. AreFor (length names.now) rules.now entries.items)) }
{
    if let Some(entries) = drafted(alloc, rules, names, laying)? {
        return Ok(Some(entries));
    }
    if entry_count(rules) > u128::from(limit) {
        return Ok(None);
    }
    Ok(Some(in_full(alloc, rules, names)?))
}

/// The table with these entries, which stand for the rules and are at most 262,144.
pub(crate) fn table_for(
    alloc: Global,
    rules: &[Rule],
    names: &Decisions,
    slot: SlotWidth,
    entries: Vec<Entry>,
) -> Result<Table, Memory>
    requires few { length entries.items ≤ MOST_ENTRIES }
    requires numbered { All (IsNumberedBy names.now) rules.now }
    requires entries { AreShortFor (length names.now) rules.now entries.items }
    ensures table { IfOk result (λ table. IsShortTable (named_rules names.now rules.now) (length entries.items) slot.bits (table_of table)) }
    ensures entries { IfOk result (λ table. table.entries.items ≡ entries.items) }
    ensures names { IfOk result (λ table. table.names ≡ names.now) }
{
    decided_words_are_entries();
    expansion_answers();
    names.are_names();
    Ok(Table {
        slot,
        composed: entries.len() as u32,
        names: names.copy(alloc)?,
        entries,
    })
}
