//! What a part saves by two labels, once one of them is joined with it.
ghost use Rattle.std.specs.Prelude.{◌≡◌, ◌≢◌, ◌++◌, ◌∷◌, ◌<◌, ◌≤◌, ◌+◌, ◌^◌, [], IfOk, IfSome, IsTrue, OnOk, length, slice_index_or, slice_set, take, drop};
ghost use Rattle.prefix_min.specs.Merging.{AreKept, IsJoined, no_entry};
ghost use Rattle.prefix_min.specs.Plan.{more_labels};
ghost use Rattle.prefix_min.specs.Savings.{lowered};

use crate::appending::append;
use crate::savings::{Gain, LabelCost};
use bumpalo::Bump;
use razor_limits::Memory;

/// What two labels save, the lesser label first.
#[derive(Clone, Copy)]
pub struct TwoSavings {
    pub first: LabelCost,
    pub second: LabelCost,
}

/// What is saved from the place on, if that is by two labels.
#[inline(always)]
pub fn pair_from(savings: &[LabelCost], start: usize) -> Option<TwoSavings>
    requires { start ≤ length savings.now }
    ensures { IfSome result (λ pair. drop start savings.now ≡ pair.first ∷ pair.second ∷ []) }
{
    let [first, second] = &savings[start..] else {
        return None;
    };
    Some(TwoSavings {
        first: *first,
        second: *second,
    })
}

/// Puts another cost into the entry at the place.
#[inline(always)]
fn set_cost(savings: &mut Vec<LabelCost>, place: usize, cost: u128)
    requires { place < length savings.old.items }
    ensures { savings.new.items ≡ slice_set savings.old.items place (record { label = (slice_index_or savings.old.items place no_entry).label; cost = cost }) }
{
    let mut entry = savings[place];
    entry.cost = cost;
    savings[place] = entry;
}

/// Takes the gain off the last entry, which goes where nothing is left of it.
#[inline(always)]
fn lower_last(savings: &mut Vec<LabelCost>, place: usize, gain: u128)
    requires { place + 1 ≡ length savings.old.items }
    ensures { savings.new.items ≡ take place savings.old.items ++ lowered gain (drop place savings.old.items) }
{
    let cost = savings[place].cost;
    if cost <= gain {
        savings.truncate(place);
        return;
    }
    set_cost(savings, place, cost - gain);
}

/// Puts the label that isn't the gain's behind the further ones, if it is one of them and choices are kept.
#[inline(always)]
fn put_other(
    also: &mut Vec<u32, &Bump>,
    keeps: bool,
    other: LabelCost,
    gain: Gain,
) -> Result<(), Memory>
    requires { other.label ≢ gain.best }
    ensures { OnOk result (IsTrue keeps → also.new.items ≡ also.old.items ++ more_labels gain (other ∷ [])) }
{
    if !keeps || gain.gain == 0 {
        return Ok(());
    }
    if gain.gain <= other.cost {
        append(also, other.label)?;
    }
    Ok(())
}

/// Joins what two labels save, which stands from `start` on, with what the lesser one saves beside it.
#[inline(always)]
pub fn join_first(
    savings: &mut Vec<LabelCost>,
    also: &mut Vec<u32, &Bump>,
    keeps: bool,
    start: usize,
    pair: TwoSavings,
    one: LabelCost,
    weights: &[u128],
) -> Result<Gain, Memory>
    requires start { start ≤ length savings.old.items }
    requires pair { drop start savings.old.items ≡ pair.first ∷ pair.second ∷ [] }
    requires same { pair.first.label ≡ one.label }
    requires list { AreKept weights.now (drop start savings.old.items) }
    requires one { AreKept weights.now (one ∷ []) }
    requires room { pair.first.cost + one.cost < 2 ^ 128 }
    ensures { IfOk result (λ g. IsJoined keeps weights.now (drop start savings.old.items) (one ∷ []) (take start savings.old.items) savings.new.items also.old.items also.new.items g) }
{
    let sum = pair.first.cost + one.cost;
    let gain = Gain {
        gain: sum.saturating_sub(weights[one.label as usize]),
        best: one.label,
    };
    put_other(also, keeps, pair.second, gain)?;
    set_cost(savings, start, sum - gain.gain);
    lower_last(savings, start + 1, gain.gain);
    Ok(gain)
}

/// Joins what two labels save, which stands from `start` on, with what the greater one saves beside it.
#[inline(always)]
pub fn join_second(
    savings: &mut Vec<LabelCost>,
    also: &mut Vec<u32, &Bump>,
    keeps: bool,
    start: usize,
    pair: TwoSavings,
    one: LabelCost,
    weights: &[u128],
) -> Result<Gain, Memory>
    requires start { start ≤ length savings.old.items }
    requires pair { drop start savings.old.items ≡ pair.first ∷ pair.second ∷ [] }
    requires same { pair.second.label ≡ one.label }
    requires list { AreKept weights.now (drop start savings.old.items) }
    requires one { AreKept weights.now (one ∷ []) }
    requires room { pair.second.cost + one.cost < 2 ^ 128 }
    ensures { IfOk result (λ g. IsJoined keeps weights.now (drop start savings.old.items) (one ∷ []) (take start savings.old.items) savings.new.items also.old.items also.new.items g) }
{
    let sum = pair.second.cost + one.cost;
    let gain = Gain {
        gain: sum.saturating_sub(weights[one.label as usize]),
        best: one.label,
    };
    put_other(also, keeps, pair.first, gain)?;
    if pair.first.cost <= gain.gain {
        savings.truncate(start + 1);
        savings[start] = LabelCost {
            label: one.label,
            cost: sum - gain.gain,
        };
        return Ok(gain);
    }
    set_cost(savings, start, pair.first.cost - gain.gain);
    set_cost(savings, start + 1, sum - gain.gain);
    Ok(gain)
}
