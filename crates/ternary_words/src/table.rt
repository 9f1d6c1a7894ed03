//! Tables: entries, the width of their slots, and the names of their decisions.
ghost use Rattle.std.specs.Prelude.{◌≤◌, length, vec_len};
ghost use Rattle.razor_limits.specs.declared.limits.TheConstants.{MOST_ENTRIES};
ghost use Rattle.ternary_words.specs.Limits.{AreNumbered};

use crate::entry::Entry;
use crate::slot_width::SlotWidth;
use field_boxes::Decisions;
use razor_limits::Memory;
use std::alloc::Global;

/// A list of entries for slots of the width, with the names of their decisions.
///
/// `composed` is the number of entries before redundant ones were removed. Both it and the number of
/// entries are at most 262,144.
#[derive(Drop)]
pub struct Table {
    pub slot: SlotWidth,
    pub composed: u32,
    pub entries: Vec<Entry>,
    pub names: Decisions,
    pub ghost counted: { composed ≤ MOST_ENTRIES },
    pub ghost few: { vec_len entries ≤ MOST_ENTRIES },
    pub ghost numbered: { AreNumbered (length names) entries.items },
}

impl Table {
    ghost use Rattle.std.specs.Prelude.{IfOk};
    ghost use Rattle.ternary_words.specs.Copies.{IsCopyOf};

    /// A copy: the same entries, with the same names under the same numbers.
    pub fn copy(&self, alloc: Global) -> Result<Table, Memory>
        ensures { IfOk result (λ copy. IsCopyOf self.now copy) }
    {
        Ok(Table {
            slot: self.slot,
            composed: self.composed,
            entries: self.entries.as_slice().to_vec(alloc)?,
            names: self.names.copy(alloc)?,
        })
    }
}
