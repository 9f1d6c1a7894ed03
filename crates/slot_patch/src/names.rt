//! The names of decisions, in one list that only grows.
ghost use Rattle.std.specs.Prelude.{◌≡◌, ◌<◌, ℕ, length, map, slice_index_or, IfOk};
ghost use Rattle.ternary_words.specs.declared.entry.Entry.{Entry as SeenEntry};
ghost use Rattle.slot_patch.specs.Naming.{renumbered};

use field_boxes::Decisions;
use indexmap::IndexSet;
use razor_limits::Memory;
use std::alloc::Global;
use std::marker::Model;
use ternary_words::{Entry, Table};

/// The names of decisions, numbered from 1 in the order in which they were first seen; 0 is no decision.
#[derive(Drop)]
pub struct Names {
    alloc: Global,
    names: IndexSet<String>,
}

impl Model for Names {
    ghost use Rattle.std.specs.Prelude.{ℕ, ◌<◌, ◌^◌, List, length, map};
    ghost use Rattle.std.specs.String.{string_bytes};

    ghost Value = { List (List ℕ) };

    ghost view = { λ d. map string_bytes d.names.keys };

    ghost invariant = { λ d. length (map string_bytes d.names.keys) < 2 ^ 32 };
}

impl Names {
    ghost use Rattle.std.specs.Prelude.{◌≡◌, ◌≤◌, [], Some, length, map, IfOk, OnOk, OnErr};
    ghost use Rattle.ternary_words.specs.Limits.{AreNumbered};
    ghost use Rattle.ternary_words.specs.Views.{entry_of};
    ghost use Rattle.field_boxes.specs.Headline.Names.{text_of};
    ghost use Rattle.field_boxes.specs.Names.{name_at, with_name};
    ghost use Rattle.slot_patch.specs.Naming.{AreNumbersOf, ComeFrom, Grow, HaveWordsOf};

    /// No name.
    pub fn new(alloc: Global) -> Names
        ensures { result ≡ [] }
    {
        Names {
            alloc,
            names: IndexSet::new(alloc),
        }
    }

    /// A copy, with the same names under the same numbers.
    pub(crate) fn copy(&self, alloc: Global) -> Result<Names, Memory>
        ensures { IfOk result (λ copy. copy ≡ self.now) }
    {
        Ok(Names {
            alloc,
            names: self.names.clone()?,
        })
    }

    /// The number of the name: its own where it is there, and the next one for a new name. There is no memory for 2^32 names.
    pub fn number(&mut self, name: &str) -> Result<u32, Memory>
        ensures names { OnOk result (self.new ≡ with_name self.old name.now) }
        ensures number { IfOk result (λ n. name_at self.new n ≡ Some name.now) }
        ensures within { IfOk result (λ n. n ≤ length self.new) }
        ensures err { OnErr result (self.new ≡ self.old) }
    {
        if let Some(place) = self.names.get_index_of(name) {
            return Ok(place as u32 + 1);
        }
        if self.names.len() >= u32::MAX as usize {
            return Err(Memory);
        }
        let owned = String::from_str(self.alloc, name)?;
        let (place, _) = self.names.insert_full(owned)?;
        Ok(place as u32 + 1)
    }

    /// The numbers of these names, behind that of no decision.
    pub(crate) fn numbers(&mut self, alloc: Global, names: &Decisions) -> Result<Vec<u32>, Memory>
        ensures grow { Grow self.old self.new }
        ensures from { OnOk result (ComeFrom self.old names.now self.new) }
        ensures numbers { IfOk result (λ numbers. AreNumbersOf (length names.now) names.now self.new numbers.items) }
    {
        let mut numbers = Vec::new(alloc);
        numbers.push(0)?;
        for number in 0..names.count() {
            numbers.push(self.number(names.name(number + 1))?)?;
        }
        Ok(numbers)
    }

    /// The entries of the table, with the numbers that their decisions have here.
    pub fn renumber(&mut self, alloc: Global, table: &Table) -> Result<Vec<Entry>, Memory>
        ensures grow { Grow self.old self.new }
        ensures from { OnOk result (ComeFrom self.old table.now.names self.new) }
        ensures names { IfOk result (λ entries. map (entry_of self.new) entries.items ≡ map (entry_of table.now.names) table.now.entries.items) }
        ensures words { IfOk result (λ entries. HaveWordsOf entries.items table.now.entries.items) }
        ensures within { IfOk result (λ entries. AreNumbered (length self.new) entries.items) }
    {
        let numbers = self.numbers(alloc, &table.names)?;
        let entries = with_numbers(alloc, &numbers, &table.entries)?;
        Ok(entries)
    }

    /// The text of the decision with the number: `miss` where it has none.
    pub fn name(&self, number: u32) -> &str
        ensures { result.now ≡ text_of (name_at self.now number) }
    {
        if number == 0 {
            return "miss";
        }
        match self.names.get_index(number as usize - 1) {
            Some(name) => name.as_str(),
            None => "miss",
        }
    }
}

/// The entries with other numbers of their decisions.
fn with_numbers(alloc: Global, numbers: &[u32], entries: &[Entry]) -> Result<Vec<Entry>, Memory>
    requires { (k : ℕ) (d : SeenEntry) → k < length entries.now → (slice_index_or entries.now k d).decision < length numbers.now }
    ensures { IfOk result (λ made. made.items ≡ map (renumbered numbers.now) entries.now) }
{
    let mut made = Vec::with_capacity(alloc, entries.len())?;
    for entry in entries {
        made.push(Entry {
            word: entry.word,
            decision: numbers[entry.decision as usize],
        })?;
    }
    Ok(made)
}
