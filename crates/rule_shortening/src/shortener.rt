//! A shortener of lists one after another.
ghost use Rattle.std.specs.Prelude.{◌≡◌, ◌≤◌, All, IfOk, IfSome, MatchResult, length};
ghost use Rattle.field_boxes.specs.NamedRules.{IsNumberedBy, named_rules};
ghost use Rattle.razor_limits.specs.declared.limits.TheConstants.{MOST_RULES};
ghost use Rattle.ternary_words.specs.Views.{table_of};
ghost use Rattle.rule_shortening.specs.Drafts.{AreFor};
ghost use Rattle.rule_shortening.specs.Shortened.{IsRefused, IsShortTable};
ghost use Rattle.rule_shortening.specs.Tasks.{IsTableFor, IsTask};

use crate::checked::if_as_short;
use crate::draft::{has_room, in_full};
use crate::known::Known;
use crate::refusal::ShortenError;
use crate::shortening::{shorten, table_for};
use crate::taken::Taken;
use crate::task::Task;
use crate::trimming::trim_for;
use field_boxes::{Decisions, Rule};
use razor_limits::Memory;
use std::alloc::Global;
use ternary_words::{Entry, Limit, SlotWidth, Table};

/// Shortens lists one after another: a list that an edit changed gets the table of a list before, repaired, which differs
/// from that one in few entries and takes little time. That is the table to which an update [`began`](Shortener::begin)
/// last, or, where the update was [`aborted`](Shortener::abort), the one before: so it stands in the memory.
///
/// Repairs make tables longer than they need be. So after 32 of them, after a broad edit, or where a table has grown by a
/// fiftieth, one is made anew beside the repaired one, and handed over where it is shorter by more than a hundredth. It
/// shares little with the one in the memory, which may have no room for it: then [`Shortener::has_other`], and the next call
/// hands over the repaired one.
#[derive(Drop)]
pub struct Shortener {
    alloc: Global,
    settled: Option<Known>,
    /// What an update goes to that began, and what was made last.
    pending: Option<Known>,
    made: Option<Known>,
    has_other: bool,
}

impl Shortener {
    /// A shortener that has met no list.
    pub fn new(alloc: Global) -> Shortener {
        Shortener {
            alloc,
            settled: None,
            pending: None,
            made: None,
            has_other: false,
        }
    }

    /// The table that stands in the memory takes these slots there. The next one is then ordered so that few entries have to move.
    pub fn stand(&mut self, taken: &Taken) -> Result<(), Memory> {
        self.settle();
        match &mut self.settled {
            Some(known) => known.stand(taken),
            None => Ok(()),
        }
    }

    /// A table of the rules, with the promises of [`crate::shorten`].
    pub fn shorten(
        &mut self,
        rules: &[Rule],
        names: &Decisions,
        limit: Limit,
        slot: SlotWidth,
    ) -> Result<Table, ShortenError>
        requires few { length rules.now ≤ MOST_RULES }
        requires numbered { All (IsNumberedBy names.now) rules.now }
        ensures table { MatchResult result
            (λ table. IsShortTable (named_rules names.now rules.now) limit.count slot.bits (table_of table))
            (λ e. IsRefused (named_rules names.now rules.now) limit.count e) }
        ensures names { IfOk result (λ table. table.names ≡ names.now) }
    {
        let task = Task {
            rules,
            names,
            limit,
            slot,
        };
        self.settle();
        let Some(table) = self.repaired(task)? else {
            return self.anew(task);
        };
        if let Some(shorter) = self.rebuilt(task, table.entries.len()) {
            return Ok(shorter);
        }
        self.follow(rules, &table.entries)?;
        Ok(table)
    }

    /// Whether the table that was made last is one made anew, where the settled one can be repaired too.
    pub fn has_other(&self) -> bool {
        self.has_other
    }

    /// An update to the table that was made last has begun.
    pub fn begin(&mut self) {
        self.pending = self.made.take();
    }

    /// That update goes back.
    pub fn abort(&mut self) {
        self.pending = None;
    }

    /// The update that began is over.
    fn settle(&mut self) {
        if let Some(known) = self.pending.take() {
            self.settled = Some(known);
        }
        self.made = None;
        self.has_other = false;
    }

    /// Below how many entries a table that is made anew is worth it, where one is due beside a repaired one of so many.
    fn due(&mut self, rules: &[Rule], count: usize) -> Option<usize> {
        match &mut self.settled {
            Some(known) => known.due(rules, count),
            None => None,
        }
    }

    /// A table that is made anew, where that is due and makes it shorter than so many entries.
    fn rebuilt(&mut self, task: Task, count: usize) -> Option<Table>
        requires { IsTask task.names.now task.rules.now }
        ensures { IfSome result (IsTableFor task.entry.names.now task.entry.rules.now task.entry.limit.count task.entry.slot.bits) }
    {
        let below = self.due(task.rules, count)?;
        let Ok(table) = shorten(self.alloc, task.rules, task.names, task.limit, task.slot) else {
            return None;
        };
        if table.entries.len() >= below {
            return None;
        }
        let table = self.in_old_order(task, table);
        let Ok(made) = Known::new(self.alloc, task.rules, &table.entries) else {
            return None;
        };
        self.made = Some(made);
        self.has_other = true;
        Some(table)
    }

    /// The table with its entries in an order like that of the settled one, where that is seen to be right.
    fn in_old_order(&self, task: Task, table: Table) -> Table
        requires task { IsTask task.names.now task.rules.now }
        requires table { IsTableFor task.names.now task.rules.now task.limit.count task.slot.bits table }
        ensures { IsTableFor task.entry.names.now task.entry.rules.now task.entry.limit.count task.entry.slot.bits result }
    {
        let Some(known) = &self.settled else {
            return table;
        };
        match next_table(self.alloc, known, task, Some(&table.entries)) {
            Ok(Some(ordered)) => ordered,
            _ => table,
        }
    }

    /// The settled table, repaired; none where that isn't seen to be right, or above the limit.
    fn repaired(&self, task: Task) -> Result<Option<Table>, Memory>
        requires { IsTask task.names.now task.rules.now }
        ensures { IfOk result (λ made. IfSome made (IsTableFor task.entry.names.now task.entry.rules.now task.entry.limit.count task.entry.slot.bits)) }
    {
        let Some(known) = &self.settled else {
            return Ok(None);
        };
        next_table(self.alloc, known, task, None)
    }

    /// The repaired table of these rules, which has these entries, is the one that was made last.
    fn follow(&mut self, rules: &[Rule], entries: &[Entry]) -> Result<(), Memory> {
        if let Some(known) = &self.settled {
            self.made = Some(known.followed(rules, entries)?);
        }
        Ok(())
    }

    /// The table that [`crate::shorten`] makes.
    fn anew(&mut self, task: Task) -> Result<Table, ShortenError>
        requires { IsTask task.names.now task.rules.now }
        ensures { MatchResult result
            (IsTableFor task.entry.names.now task.entry.rules.now task.entry.limit.count task.entry.slot.bits)
            (IsRefused (named_rules task.entry.names.now task.entry.rules.now) task.entry.limit.count) }
    {
        let table = shorten(self.alloc, task.rules, task.names, task.limit, task.slot)?;
        self.made = Some(Known::new(self.alloc, task.rules, &table.entries)?);
        Ok(table)
    }
}

/// The table that is known, repaired for the list, or the one made anew in its order; none where that isn't seen to be right, or
/// above the limit.
fn next_table(
    alloc: Global,
    known: &Known,
    task: Task,
    anew: Option<&[Entry]>,
) -> Result<Option<Table>, Memory>
    requires { IsTask task.names.now task.rules.now }
    ensures { IfOk result (λ made. IfSome made (IsTableFor task.entry.names.now task.entry.rules.now task.entry.limit.count task.entry.slot.bits)) }
{
    let Some(entries) = next_entries(alloc, known, task.rules, task.names, anew)? else {
        return Ok(None);
    };
    let entries = trim_for(alloc, task.rules, task.names, entries)?;
    if entries.len() > task.limit.count as usize {
        return Ok(None);
    }
    Ok(Some(table_for(alloc, task.rules, task.names, task.slot, entries)?))
}

/// The entries that are known, repaired for the rules, or those made anew in their order; none where that isn't seen to be right.
fn next_entries(
    alloc: Global,
    known: &Known,
    rules: &[Rule],
    names: &Decisions,
    anew: Option<&[Entry]>,
) -> Result<Option<Vec<Entry>>, Memory>
    requires few { length rules.now ≤ MOST_RULES }
    requires numbered { All (IsNumberedBy names.now) rules.now }
    ensures { IfOk result (λ made. IfSome made (λ entries. AreFor (length names.now) rules.now entries.items)) }
{
    if !has_room(rules, 0) {
        return Ok(None);
    }
    let list = in_full(alloc, rules, names)?;
    let Some(new) = known.proposed(rules, list.as_slice(), anew)? else {
        return Ok(None);
    };
    let Some(seen) = if_as_short(alloc, list.as_slice(), new, names.count())? else {
        return Ok(None);
    };
    Ok(Some(seen))
}
