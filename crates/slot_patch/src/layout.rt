//! Slots for the entries of two tables.
ghost use Rattle.std.specs.Prelude.{◌≡◌};
ghost use Rattle.slot_patch.specs.Merging.{entry_at};

use razor_limits::Memory;
use std::alloc::Global;
use ternary_words::Entry;

/// For each slot the places of the old entry and of the new one that are to stand there.
#[derive(Drop)]
pub(crate) struct Layout {
    pub(crate) start: Vec<Option<usize>>,
    pub(crate) next: Vec<Option<usize>>,
}

impl Layout {
    ghost use Rattle.std.specs.Prelude.{◌≡◌, ◌++◌, ◌∷◌, [], IfOk, OnOk};

    /// No slot, and room for so many.
    pub(crate) fn with_room(alloc: Global, slots: usize) -> Result<Layout, Memory>
        ensures start { IfOk result (λ layout. layout.start.items ≡ []) }
        ensures next { IfOk result (λ layout. layout.next.items ≡ []) }
    {
        Ok(Layout {
            start: Vec::with_capacity(alloc, slots)?,
            next: Vec::with_capacity(alloc, slots)?,
        })
    }

    /// One slot more, for the entries at these places.
    pub(crate) fn put(&mut self, old: Option<usize>, new: Option<usize>) -> Result<(), Memory>
        ensures start { OnOk result (self.new.start.items ≡ self.old.start.items ++ old ∷ []) }
        ensures next { OnOk result (self.new.next.items ≡ self.old.next.items ++ new ∷ []) }
    {
        self.start.push(old)?;
        self.next.push(new)?;
        Ok(())
    }
}

/// The entry at a place of a table, if there is one.
pub(crate) fn entry_at(entries: &[Entry], place: Option<usize>) -> Option<Entry>
    ensures { result ≡ entry_at entries.now place }
{
    match place {
        Some(place) => entries.get(place).copied(),
        None => None,
    }
}
