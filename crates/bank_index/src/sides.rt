//! The slots on one side of a bit.
ghost use Rattle.std.specs.Prelude.{◌≡◌, ◌<◌, IfOk, filter};
ghost use Rattle.bank_index.specs.Bits.{may_hit};

use crate::bit::may_match;
use razor_limits::Memory;
use std::alloc::Global;
use ternary_words::Entry;

/// Whether the slot's word may match a header with this bit.
#[inline]
fn may_hit(entries: &[Entry], slot: u32, bit: u32, one: bool) -> bool
    requires { bit < 104 }
    ensures { result ≡ may_hit entries.now bit one slot }
{
    match entries.get(slot as usize) {
        Some(entry) => may_match(&entry.word, bit, one),
        None => false,
    }
}

/// Those of the slots whose words may match a header with this bit, in their order.
pub(crate) fn side(
    alloc: Global,
    entries: &[Entry],
    slots: &[u32],
    bit: u32,
    one: bool,
) -> Result<Vec<u32>, Memory>
    requires { bit < 104 }
    ensures { IfOk result (λ kept. kept.items ≡ filter (may_hit entries.now bit one) slots.now) }
{
    let mut kept = Vec::with_capacity(alloc, slots.len())?;
    for slot in slots {
        if may_hit(entries, *slot, bit, one) {
            kept.push(*slot)?;
        }
    }
    Ok(kept)
}
