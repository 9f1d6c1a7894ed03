//! Where two lists of rules differ.

use field_boxes::Rule;

/// How many rules are passed at most, to where two lists go on alike.
const REACH: usize = 32;

/// The differences of two lists that are left, from the first to the last.
#[derive(Clone, Copy)]
pub(crate) struct Differences<'a> {
    old: &'a [Rule],
    new: &'a [Rule],
}

impl<'a> Differences<'a> {
    pub fn of(old: &'a [Rule], new: &'a [Rule]) -> Differences<'a> {
        Differences { old, new }
    }

    /// The rules of the one list that stand in the place of those of the other; none where no difference is left.
    pub fn next(&mut self) -> Option<(&'a [Rule], &'a [Rule])> {
        let same = self
            .old
            .iter()
            .zip(self.new)
            .take_while(|(one, other)| one == other)
            .count();
        let (old, new) = (behind(self.old, same), behind(self.new, same));
        if old.is_empty() && new.is_empty() {
            return None;
        }
        let (gone, came) = passed(old, new);
        self.old = behind(old, gone);
        self.new = behind(new, came);
        Some((before(old, gone), before(new, came)))
    }
}

/// The fewest rules that are passed in each list to where both have the same rule; all of them where that is far.
fn passed(old: &[Rule], new: &[Rule]) -> (usize, usize) {
    for both in 1..REACH {
        for gone in 0..=both {
            let came = both.saturating_sub(gone);
            if are_same(old.get(gone), new.get(came)) {
                return (gone, came);
            }
        }
    }
    (old.len(), new.len())
}

/// Whether these are one rule.
fn are_same(one: Option<&Rule>, other: Option<&Rule>) -> bool {
    let Some(one) = one else {
        return false;
    };
    let Some(other) = other else {
        return false;
    };
    one == other
}

/// The rules before a place.
fn before(rules: &[Rule], place: usize) -> &[Rule] {
    rules.get(..place).unwrap_or(&[])
}

/// The rules from a place on.
fn behind(rules: &[Rule], place: usize) -> &[Rule] {
    rules.get(place..).unwrap_or(&[])
}
