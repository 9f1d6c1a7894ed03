//! Rules laid out in few entries.

use field_boxes::Rule;
use razor_limits::Memory;
use rule_expansion::{entry_count, expanded_entries};
use std::alloc::Global;
use table_search::{Layout, WIDE};
use ternary_words::Entry;

/// Entries of wide rules that are laid out at once, about.
const AT_ONCE: u128 = 14_000;

/// Entries that those of some rules in front of others may have more than twice those of all these rules together.
const SPARE: usize = 8000;

/// The rules of a list, laid out some at a time, from the last to the first. Nothing is promised of it.
#[derive(Drop)]
pub(crate) struct Laying {
    alloc: Global,
    /// The rules from the place `left` on.
    layout: Layout,
    left: usize,
    /// How many entries the wide rules have that wait.
    waiting: u128,
}

impl Laying {
    /// Of none of the rules so far.
    pub fn new(alloc: Global, rules: &[Rule]) -> Result<Laying, Memory> {
        let first = laid(alloc, rules, Layout::new(alloc, &[])?)?;
        let has_strips = first.has_strips();
        Ok(Laying {
            alloc,
            layout: if has_strips { first.again(&[])? } else { first },
            left: if has_strips { rules.len() } else { 0 },
            waiting: 0,
        })
    }

    /// Whether the rule at the place, which comes next, and those that wait are to be laid out: the wide ones have many
    /// entries, or no rule comes any more.
    pub fn is_due(&mut self, rule: &Rule, place: usize) -> bool {
        let count = entry_count(&[*rule]);
        if count > WIDE as u128 {
            self.waiting = self.waiting.saturating_add(count);
        }
        let is_due = self.waiting >= AT_ONCE || place == 0 && self.waiting > 0;
        if is_due {
            self.waiting = 0;
        }
        is_due
    }

    /// The rules, which come next, in few entries in front of those behind them; where these got too many, all rules so far
    /// laid out together.
    pub fn next(&mut self, rules: &[Rule], behind: &[Entry]) -> Result<Vec<Entry>, Memory> {
        self.put(rules)?;
        let entries = self.in_front(rules, behind)?;
        let most = self.layout.len().saturating_mul(2).saturating_add(SPARE);
        if entries.len() > most {
            self.layout.entries()
        } else {
            Ok(entries)
        }
    }

    /// All rules of the list.
    pub fn all(&mut self, rules: &[Rule]) -> Result<Vec<Entry>, Memory> {
        self.put(rules.get(..self.left).unwrap_or(&[]))?;
        self.layout.entries()
    }

    /// Lays the rules out in front of the others.
    fn put(&mut self, rules: &[Rule]) -> Result<(), Memory> {
        if self.left > 0 {
            put_all(self.alloc, rules, &mut self.layout)?;
            self.left = self.left.saturating_sub(rules.len());
        }
        Ok(())
    }

    /// The rules in front of entries that stay.
    fn in_front(&self, rules: &[Rule], behind: &[Entry]) -> Result<Vec<Entry>, Memory> {
        let first = laid(self.alloc, rules, Layout::new(self.alloc, behind)?)?;
        laid(self.alloc, rules, first.again(behind)?)?.entries()
    }
}

/// The layout with the rules in front.
fn laid(alloc: Global, rules: &[Rule], mut layout: Layout) -> Result<Layout, Memory> {
    put_all(alloc, rules, &mut layout)?;
    Ok(layout)
}

/// Puts the rules in front, from the last to the first.
fn put_all(alloc: Global, rules: &[Rule], layout: &mut Layout) -> Result<(), Memory> {
    for rule in rules.iter().rev() {
        layout.put(&expanded_entries(alloc, &[*rule])?)?;
    }
    Ok(())
}
