//! Tables without their redundant entries, by covers.
ghost use Rattle.std.specs.Prelude.{IfOk, IfSome, length};
ghost use Rattle.ternary_words.specs.Entries.{ArePrefixes};
ghost use Rattle.rule_shortening.specs.Drafts.{AreFor, AreShortFor};
ghost use Rattle.rule_shortening.specs.Trimmed.{AreTrimmed};

use crate::checked::STEPS;
use field_boxes::{Decisions, Rule};
use razor_limits::Memory;
use redundancy::remove;
use std::alloc::Global;
use table_steps::laws::parts;
use table_steps::{is_tight, tight};
use ternary_words::Entry;

/// The table without its redundant entries, tried from the last to the first. The entries' words are prefixes in each field.
///
/// Whether an entry is redundant is asked of covers, which takes time by the square of the entries, 0.1 seconds for
/// 3,000 of them. Where covers don't show for each entry that is left that it is needed, the table goes through
/// [`remove`](redundancy::remove).
pub fn trim(alloc: Global, entries: Vec<Entry>) -> Result<Vec<Entry>, Memory>
    requires { ArePrefixes entries.items }
    ensures { IfOk result (λ kept. AreTrimmed entries.items kept.items) }
{
    parts();
    if is_tight(alloc, entries.as_slice(), STEPS)? {
        return Ok(entries);
    }
    match trimmed_by_covers(alloc, entries.as_slice())? {
        Some(kept) => Ok(kept),
        None => remove(alloc, entries),
    }
}

/// Entries that stand for the rules, without the redundant ones.
pub(crate) fn trim_for(
    alloc: Global,
    _rules: &[Rule],
    _names: &Decisions,
    entries: Vec<Entry>,
) -> Result<Vec<Entry>, Memory>
    requires { AreFor (length _names.now) _rules.now entries.items }
    ensures { IfOk result (λ kept. AreShortFor (length _names.now) _rules.now kept.items) }
{
    parts();
    Ok(trim(alloc, entries)?)
}

/// The table without the entries that are seen to be redundant; none where it isn't seen that each of the others is needed.
fn trimmed_by_covers(alloc: Global, entries: &[Entry]) -> Result<Option<Vec<Entry>>, Memory>
    ensures { IfOk result (λ found. IfSome found (λ kept. AreTrimmed entries.now kept.items)) }
{
    let mut kept = Vec::new(alloc);
    kept.extend_from_slice(entries)?;
    tight(alloc, &mut kept, STEPS)?;
    if is_tight(alloc, kept.as_slice(), STEPS)? {
        Ok(Some(kept))
    } else {
        Ok(None)
    }
}
