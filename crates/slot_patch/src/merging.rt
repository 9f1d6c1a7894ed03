//! The entries of two tables in one order.
ghost use Rattle.std.specs.Prelude.{◌≡◌, ◌≤◌, ◌+◌, ℕ, suc, List, length, IfOk, OnOk};
ghost use Rattle.ternary_words.specs.declared.entry.Entry.{Entry as SeenEntry};
ghost use Rattle.slot_patch.specs.Merging.{IsLayoutOf, IsMerged};
ghost use Rattle.slot_patch.specs.Sharing.{AreShared, HaveOneWordAt};

use crate::layout::Layout;
use crate::pair::Pair;
use crate::wishes::wished;
use razor_limits::Memory;
use std::alloc::Global;
use ternary_words::Entry;

/// A layout without empty slots, in which the pairs share theirs. Between two pairs new entries come in front of the old
/// ones as `above` wishes: for each old entry, how many new ones come before it. Any wish is right.
pub(crate) fn merged(
    alloc: Global,
    old: &[Entry],
    new: &[Entry],
    pairs: &[Pair],
    above: &[usize],
) -> Result<Layout, Memory>
    requires { AreShared old.now new.now 0 0 pairs.now }
    ensures layout { IfOk result (IsLayoutOf old.now new.now) }
    ensures count { IfOk result (λ layout. length layout.start.items + length pairs.now ≡ length old.now + length new.now) }
{
    let entries = old.len().saturating_add(new.len());
    let mut layout = Layout::with_room(alloc, entries.saturating_sub(pairs.len()))?;
    let end = Pair {
        old: old.len(),
        new: new.len(),
    };
    let mut at = Pair { old: 0, new: 0 };
    for pair in pairs {
        put_pair(&mut layout, at, *pair, above)?;
        at = Pair {
            old: pair.old + 1,
            new: pair.new + 1,
        };
    }
    fill_gap(&mut layout, at, end, above)?;
    Ok(layout)
}

/// Puts the entries before a pair, and then the pair into one slot.
fn put_pair(layout: &mut Layout, start: Pair, pair: Pair, above: &[usize]) -> Result<(), Memory>
    requires old { start.old ≤ pair.old }
    requires new { start.new ≤ pair.new }
    ensures { (old new : List SeenEntry) (shared : ℕ) → HaveOneWordAt old new pair.old pair.new → IsMerged old new start.old start.new shared layout.old →
        OnOk result (IsMerged old new (suc pair.old) (suc pair.new) (suc shared) layout.new) }
{
    fill_gap(layout, start, pair, above)?;
    layout.put(Some(pair.old), Some(pair.new))?;
    Ok(())
}

/// Puts the entries between two pairs, each in a slot of its own.
fn fill_gap(layout: &mut Layout, start: Pair, end: Pair, above: &[usize]) -> Result<(), Memory>
    requires old { start.old ≤ end.old }
    requires new { start.new ≤ end.new }
    ensures { (old new : List SeenEntry) (shared : ℕ) → end.old ≤ length old → end.new ≤ length new → IsMerged old new start.old start.new shared layout.old →
        OnOk result (IsMerged old new end.old end.new shared layout.new) }
{
    let mut taken = start.new;
    for place in start.old..end.old {
        let until = wished(above, place, taken, end.new);
        put_new(layout, taken, until)?;
        taken = until;
        layout.put(Some(place), None)?;
    }
    put_new(layout, taken, end.new)?;
    Ok(())
}

/// Puts new entries, each in a slot of its own.
fn put_new(layout: &mut Layout, from: usize, to: usize) -> Result<(), Memory>
    requires { from ≤ to }
    ensures { (old new : List SeenEntry) (i shared : ℕ) → to ≤ length new → IsMerged old new i from shared layout.old → OnOk result (IsMerged old new i to shared layout.new) }
{
    for place in from..to {
        layout.put(None, Some(place))?;
    }
    Ok(())
}
