//! What two tables have in common at their front and at their end, by the words of their entries.
ghost use Rattle.std.specs.Prelude.{◌≡◌, ◌≤◌, ◌<◌, ◌+◌, ◌-◌, ◌^◌, ◌++◌, ℕ, Some, length, map, slice_get, OnOk};
ghost use Rattle.slot_patch.specs.Least.{same_word};
ghost use Rattle.slot_patch.specs.Sharing.{AreShared, moved_on, run};
ghost use Rattle.slot_patch.specs.declared.pair.Pair.{Pair as SeenPair};

use crate::pair::Pair;
use razor_limits::Memory;
use ternary_words::Entry;

/// How many entries the tables have in common at their front.
pub(crate) fn common_front(old: &[Entry], new: &[Entry]) -> usize
    ensures old { result ≤ length old.now }
    ensures new { result ≤ length new.now }
    ensures shared { AreShared old.now new.now 0 0 (run 0 0 result) }
{
    let most = old.len().min(new.len());
    for place in 0..most {
        if !have_one_word(&old[place], &new[place]) {
            return place;
        }
    }
    most
}

/// How many entries the tables have in common at their end.
pub(crate) fn common_end(old: &[Entry], new: &[Entry]) -> usize
    ensures old { result ≤ length old.now }
    ensures new { result ≤ length new.now }
    ensures shared { AreShared old.now new.now (length old.now - result) (length new.now - result)
        (run (length old.now - result) (length new.now - result) result) }
{
    let most = old.len().min(new.len());
    for done in 0..most {
        if !have_one_word(&old[old.len() - 1 - done], &new[new.len() - 1 - done]) {
            return done;
        }
    }
    most
}

/// Whether the entries have one word.
fn have_one_word(a: &Entry, b: &Entry) -> bool
    ensures { result ≡ same_word a.now b.now }
{
    a.word.mask == b.word.mask && a.word.value == b.word.value
}

/// Puts so many pairs in a row behind the others, from this one on.
pub(crate) fn push_run(pairs: &mut Vec<Pair>, first: Pair, count: usize) -> Result<(), Memory>
    requires old { first.old + count < 2 ^ 64 }
    requires new { first.new + count < 2 ^ 64 }
    ensures { OnOk result (pairs.new.items ≡ pairs.old.items ++ run first.old first.new count) }
{
    for done in 0..count {
        pairs.push(Pair {
            old: first.old + done,
            new: first.new + done,
        })?;
    }
    Ok(())
}

/// Puts pairs behind the others, so many places further on in both tables.
pub(crate) fn push_moved(pairs: &mut Vec<Pair>, more: &[Pair], by: usize) -> Result<(), Memory>
    requires { (k : ℕ) (p : SeenPair) → slice_get more.now k ≡ Some p → (by + p.old < 2 ^ 64) × (by + p.new < 2 ^ 64) }
    ensures { OnOk result (pairs.new.items ≡ pairs.old.items ++ map (moved_on by) more.now) }
{
    for pair in more {
        pairs.push(Pair {
            old: by + pair.old,
            new: by + pair.new,
        })?;
    }
    Ok(())
}
