//! The writes of a text that is read, one after another.
ghost use Rattle.std.specs.Prelude.{length};
ghost use Rattle.memory_text.specs.Kept.{AreNumberedPuts, AreSpelled};

use crate::line::SpelledWrite;
use crate::naming::numbered;
use bank_update::Put;
use razor_base::Memory;
use slot_patch::Names;
use std::alloc::Global;

/// The writes read so far, and the names of their decisions in first-seen order.
#[derive(Drop)]
pub(crate) struct Draft {
    pub(crate) writes: Vec<Put>,
    pub(crate) names: Names,
    pub ghost named: { AreSpelled names },
    pub ghost numbered: { AreNumberedPuts (length names) writes.items },
}

impl Draft {
    ghost use Rattle.std.specs.Prelude.{◌≡◌, ◌++◌, ◌∷◌, ◌+◌, ◌<◌, ℕ, [], vec_len, IfOk};
    ghost use Rattle.memory_text.specs.Kept.{AreWithin};
    ghost use Rattle.memory_text.specs.Views.{draft_of, spelled_of};

    /// No write.
    pub(crate) fn new(alloc: Global) -> Self
        ensures writes { draft_of result ≡ [] }
        ensures none { result.writes.items ≡ [] }
    {
        Draft {
            writes: Vec::new(alloc),
            names: Names::new(alloc),
        }
    }

    /// With a write behind the others, and its decision among the names.
    pub(crate) fn with(self, write: SpelledWrite<'_>) -> Result<Self, Memory>
        ensures writes { IfOk result (λ draft. draft_of draft ≡ draft_of self ++ spelled_of write.entry ∷ []) }
        ensures one_more { IfOk result (λ draft. vec_len draft.writes ≡ vec_len self.writes + 1) }
        ensures within { (slots : ℕ) → AreWithin slots self.writes.items → write.entry.slot < slots → IfOk result (λ draft. AreWithin slots draft.writes.items) }
    {
        let Draft {
            mut writes,
            mut names,
        } = self;
        let entry = numbered(&mut names, write.entry)?;
        writes.push(Put {
            slot: write.slot,
            entry,
        })?;
        Ok(Draft { writes, names })
    }
}
