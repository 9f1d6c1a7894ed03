//! Plans of writes.
ghost use Rattle.std.specs.Prelude.{◌≤◌, vec_len};
ghost use Rattle.razor_limits.specs.declared.limits.TheConstants.{MOST_ENTRIES};
ghost use Rattle.memory_text.specs.declared.TheConstants.{MOST_WRITES};
ghost use Rattle.memory_text.specs.Kept.{AreSpelled, AreWithin};

use bank_update::Put;
use slot_patch::Names;
use ternary_words::SlotWidth;

/// Writes in order to a memory of 1 to 262,144 slots of the width, with the names of their decisions.
#[derive(Drop)]
pub struct SlotPlan {
    pub slots: u32,
    pub width: SlotWidth,
    pub writes: Vec<Put>,
    pub names: Names,
    pub ghost some: { 1 ≤ slots },
    pub ghost few: { slots ≤ MOST_ENTRIES },
    pub ghost counted: { vec_len writes ≤ MOST_WRITES },
    pub ghost within: { AreWithin slots writes.items },
    pub ghost named: { AreSpelled names },
}
