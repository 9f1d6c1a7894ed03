//! Devices of which some writes fail.
ghost use Rattle.std.specs.Prelude.{◌≡◌, None, IfOk, length, replicate};
ghost use Rattle.tcam_sim.specs.FaultyBank.{faulty_slots};

use std::alloc::Global;
use std::process::Abort;
use std::test::Fail;
use tcam_sim::FaultyBank;

/// An empty device with 1 to 64 slots, whose writes of these numbers fail. The first write has number 1.
pub(super) fn bank(
    rt: &impl Abort,
    alloc: Global,
    slots: u32,
    failing: [u64; 2],
) -> Result<FaultyBank, Fail>
    ensures { IfOk result (λ bank. faulty_slots bank ≡ replicate (length (faulty_slots bank)) None) }
{
    assert!(rt; 1 <= slots);
    assert!(rt; slots <= 64);
    let mut bank = FaultyBank::new(alloc, slots)?;
    bank.fail_at(failing[0])?;
    bank.fail_at(failing[1])?;
    Ok(bank)
}
