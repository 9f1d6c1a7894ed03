//! The names of decisions and their numbers.
ghost use Rattle.std.specs.Prelude.{◌≡◌, ◌≢◌, ◌≤◌, ◌<◌, ◌↔◌, ℕ, false, List, [], length, Some, IfOk, IfSome, IsNone, OnOk, OnErr};
ghost use Rattle.razor_limits.specs.declared.limits.TheConstants.{MOST_ENTRIES};
ghost use Rattle.field_boxes.specs.Headline.Names.{miss, text_of};
ghost use Rattle.field_boxes.specs.Names.{AreNames, is_known, name_at, number_of, with_name};

use indexmap::IndexSet;
use razor_limits::Memory;
use std::alloc::Global;
use std::marker::Model;

/// The names of decisions, numbered from 1 in the order in which they were first seen.
///
/// The number 0 is no decision, whose text is `miss`. There are at most 262,144 names.
#[derive(Drop)]
pub struct Decisions {
    alloc: Global,
    names: IndexSet<String>,
}

impl Model for Decisions {
    ghost use Rattle.std.specs.Prelude.{ℕ, List, map};
    ghost use Rattle.std.specs.String.{string_bytes};
    ghost use Rattle.field_boxes.specs.Names.{AreNames};

    ghost Value = { List (List ℕ) };

    ghost view = { λ d. map string_bytes d.names.keys };

    ghost invariant = { λ d. AreNames (map string_bytes d.names.keys) };
}

impl Decisions {
    /// No name.
    pub fn new(alloc: Global) -> Self
        ensures { result ≡ [] }
    {
        Decisions {
            alloc,
            names: IndexSet::new(alloc),
        }
    }

    /// The number of the name: its own where it is there, and the next one for a new name.
    pub fn intern(&mut self, name: &str) -> Result<u32, Memory>
        requires named { name.now ≢ miss }
        requires room { is_known self.old name.now ≡ false → length self.old < MOST_ENTRIES }
        ensures names { OnOk result (self.new ≡ with_name self.old name.now) }
        ensures number { IfOk result (λ n. name_at self.new n ≡ Some name.now) }
        ensures within { IfOk result (λ n. (0 < n) × (n ≤ length self.new)) }
        ensures kept { (k : ℕ) → k ≤ length self.old → name_at self.new k ≡ name_at self.old k }
        ensures err { OnErr result (self.new ≡ self.old) }
    {
        if let Some(place) = self.names.get_index_of(name) {
            return Ok(place as u32 + 1);
        }
        let owned = String::from_str(self.alloc, name)?;
        let (place, _) = self.names.insert_full(owned)?;
        Ok(place as u32 + 1)
    }

    /// How many names there are.
    pub fn count(&self) -> u32
        ensures { result ≡ length self.now }
    {
        self.names.len() as u32
    }

    /// The text of the decision with the number: `miss` for 0.
    pub fn name(&self, number: u32) -> &str
        requires { number ≤ length self.now }
        ensures { result.now ≡ text_of (name_at self.now number) }
    {
        if number == 0 {
            return "miss";
        }
        match self.names.get_index(number as usize - 1) {
            Some(name) => name.as_str(),
            None => unreachable!(),
        }
    }

    /// The number of the decision with the text: 0 for `miss`, and none where the name isn't there.
    pub fn number(&self, name: &str) -> Option<u32>
        ensures { result ≡ number_of self.now name.now }
    {
        if name == "miss" {
            return Some(0);
        }
        let place = self.names.get_index_of(name)?;
        Some(place as u32 + 1)
    }

    /// A copy, with the same names under the same numbers.
    pub fn copy(&self, alloc: Global) -> Result<Decisions, Memory>
        ensures { IfOk result (λ copy. copy ≡ self.now) }
    {
        Ok(Decisions {
            alloc,
            names: self.names.clone()?,
        })
    }

    /// There are at most 262,144 names, none is `miss`, and none stands twice.
    ///
    /// The call does nothing: it tells its caller what holds of the names at all times.
    pub fn are_names(&self)
        ensures { AreNames self.now }
    {
        let _names = &self.names;
    }
}
