//! What a ternary memory does.
ghost use Rattle.std.specs.Prelude.{◌≡◌, ◌≤◌, ◌<◌, ℕ, List, Option, length, option_map, slice_set, OnOk, OnErr};
ghost use Rattle.razor_limits.specs.Counts.{counted, Rose};
ghost use Rattle.tcam_sim.specs.Slots.{Stored, look_up, stored};

use field_boxes::Header;
use razor_limits::Failed;
use ternary_words::Entry;

/// A ternary memory: slots counted from 0, each empty or an entry.
pub trait Device {
    /// What the slots hold. Their number never changes.
    ghost held: { Self → List (Option Stored) };

    /// How often a call has failed; the count stays at 2^64 - 1 once it is there.
    ghost faults: { Self → ℕ };

    /// How many calls of `set` were made, whether they failed or not; the count stays at 2^64 - 1 once it is there.
    ghost tries: { Self → ℕ };

    /// How many slots there are.
    fn slots(&self) -> u32
        ensures { result ≡ length (held self.now) };

    /// Puts the entry into the slot, or empties it. A call that fails changes no slot.
    fn set(&mut self, slot: u32, entry: Option<Entry>) -> Result<(), Failed>
        requires { slot < length (held self.old) }
        ensures ok { OnOk result (held self.new ≡ slice_set (held self.old) slot (option_map stored entry)) }
        ensures err { OnErr result (held self.new ≡ held self.old) }

        // A failure is counted, and the count doesn't fall.
        ensures failed { OnErr result (Rose (faults self.old) (faults self.new)) }
        ensures counts { faults self.old ≤ faults self.new }

        // It is one try, also where it fails.
        ensures tried { tries self.new ≡ counted (tries self.old) };

    /// The least slot whose word matches the header, and its decision; none exactly where no word does.
    fn look(&self, header: &Header) -> Option<(u32, u32)>
        ensures { result ≡ look_up (held self.now) header.now.values };
}
