//! Contexts, each once.
ghost use Rattle.std.specs.Prelude.{◌≡◌, Some, true, slice_get, IfSome};

use crate::contexts::Contexts;
use indexmap::IndexSet;
use razor_limits::Memory;
use redundancy_laws::Context;
use smallvec::SmallVec;
use std::alloc::Global;
use std::marker::Model;
use std::mem;

/// As many contexts are compared one by one; a set is asked for those behind them.
const FEW: usize = 40;

/// Contexts in the order in which they came first: few, and behind them more.
#[derive(Drop)]
pub(crate) struct Distinct {
    few: Contexts,
    more: IndexSet<Context>,
}

impl Model for Distinct {
    ghost use Rattle.std.specs.Prelude.{◌++◌, List};
    ghost use Rattle.redundancy_laws.specs.declared.context.Context.{Context as OneContext};

    ghost Value = { List OneContext };

    ghost view = { λ d. d.few.items ++ d.more.keys };
}

impl Distinct {
    ghost use Rattle.std.specs.Prelude.{◌⊎◌, ◌∷◌, ◌++◌, [], IfOk, OnOk};

    /// No context.
    pub fn new(alloc: Global) -> Distinct
        ensures { result ≡ [] }
    {
        Distinct {
            few: SmallVec::new(alloc),
            more: IndexSet::new(alloc),
        }
    }

    /// Forgets the contexts; the room of the set is used again.
    pub fn clear(&mut self)
        ensures { self.new ≡ [] }
    {
        self.few.clear();
        if !self.more.is_empty() {
            self.more.clear();
        }
    }

    /// The place of the context, which comes behind the others where it isn't among them.
    pub fn place(&mut self, pair: Context) -> Result<usize, Memory>
        ensures found { IfOk result (λ place. slice_get self.new place ≡ Some pair) }
        ensures keys { OnOk result ((self.new ≡ self.old) ⊎ (self.new ≡ self.old ++ pair ∷ [])) }
    {
        if let Some(place) = place_of(self.few.as_slice(), pair) {
            return Ok(place);
        }
        let count = self.few.len();
        if count < FEW && self.more.is_empty() {
            self.few.push(pair)?;
            return Ok(count);
        }
        let (place, _added) = self.more.insert_full(pair)?;
        count.checked_add(place).ok_or(Memory)
    }

    /// All of them. What is left says nothing until it is cleared.
    pub fn take(&mut self, alloc: Global) -> Result<Contexts, Memory>
        ensures { IfOk result (λ all. all.items ≡ self.old) }
    {
        self.few.extend_from_slice(self.more.as_slice())?;
        let all = mem::replace(&mut self.few, SmallVec::new(alloc));
        Ok(all)
    }
}

/// Where the context stands in the list.
fn place_of(pairs: &[Context], pair: Context) -> Option<usize>
    ensures { IfSome result (λ place. slice_get pairs.now place ≡ Some pair) }
{
    for (place, own) in pairs.iter().enumerate() {
        if same(*own, pair) {
            return Some(place);
        }
    }
    None
}

/// Whether the contexts are of the same nodes.
fn same(pair: Context, other: Context) -> bool
    ensures { result ≡ true → pair ≡ other }
{
    pair.after.0 == other.after.0 && pair.met.0 == other.met.0
}
