//! What a part that grows saves, once the part beside it is joined with it.
ghost use Rattle.std.specs.Prelude.{◌≡◌, ℕ, ◌++◌, ◌∷◌, ◌<◌, ◌≤◌, ◌+◌, ◌-◌, ◌^◌, [], IfOk, IfSome, IsFalse, IsSome, IsTrue, MatchOption, OnOk, length, take, drop};
ghost use Rattle.std.specs.List.{insert};
ghost use Rattle.prefix_min.specs.Costs.{RisesFrom};
ghost use Rattle.prefix_min.specs.Merging.{AreAbove, AreKept, IsJoined, IsTaken, StandsAt, count_below, merged};
ghost use Rattle.prefix_min.specs.Plan.{more_labels};
ghost use Rattle.prefix_min.specs.Savings.{lowered, saved, with_one};

use crate::savings::pairs::{join_first, join_second, pair_from};
use crate::savings::{Gain, LabelCost, is_alone, join, put_more};
use bumpalo::Bump;
use razor_limits::Memory;

/// How many labels are less, before the first that isn't.
fn count_below(savings: &[LabelCost], label: u32) -> usize
    ensures { result ≡ count_below label savings.now }
{
    let mut count = 0;
    for entry in savings {
        if label <= entry.label {
            return count;
        }
        count += 1;
    }
    count
}

/// Whether the label stands at the place.
fn stands_at(savings: &[LabelCost], place: usize, label: u32) -> bool
    ensures yes { IsTrue result → StandsAt savings.now place label }
    ensures no { IsFalse result → StandsAt savings.now place label → ⊥ }
{
    place < savings.len() && savings[place].label == label
}

/// Puts an entry before the one at the place, or behind the last one. Mostly it comes last or before the last, and this
/// is told apart.
#[inline(always)]
fn put_in(savings: &mut Vec<LabelCost>, place: usize, entry: LabelCost) -> Result<(), Memory>
    requires { place ≤ length savings.old.items }
    ensures { OnOk result (savings.new.items ≡ insert savings.old.items place entry) }
{
    if place == savings.len() {
        savings.push(entry)?;
        return Ok(());
    }
    if place + 1 == savings.len() {
        let LabelCost { label, cost } = savings[place];
        savings.push(LabelCost { label, cost })?;
        savings[place] = entry;
        return Ok(());
    }
    savings.insert(place, entry)?;
    Ok(())
}

/// Adds what one label saves to what stands from `start` on, and gives what it saves above its weight then.
#[inline(always)]
fn merge(
    savings: &mut Vec<LabelCost>,
    start: usize,
    one: LabelCost,
    weight: u128,
) -> Result<u128, Memory>
    requires start { start ≤ length savings.old.items }
    requires rises { RisesFrom 0 (drop start savings.old.items) }
    requires room { saved (drop start savings.old.items) one.label + one.cost < 2 ^ 128 }
    requires light { one.cost ≤ weight }
    ensures savings { OnOk result (savings.new.items ≡ take start savings.old.items ++ merged one (drop start savings.old.items)) }
    ensures gain { IfOk result (λ g. g ≡ saved (drop start savings.old.items) one.label + one.cost - weight) }
{
    let place = start + count_below(&savings[start..], one.label);
    if stands_at(savings, place, one.label) {
        let mut entry = savings[place];
        entry.cost += one.cost;
        savings[place] = entry;
        return Ok(entry.cost.saturating_sub(weight));
    }
    // Made anew, so that no padding is carried along to here.
    let entry = LabelCost {
        label: one.label,
        cost: one.cost,
    };
    put_in(savings, place, entry)?;
    Ok(0)
}

/// Takes the gain off what stands from `start` on, and moves up what is left above 0.
#[inline(always)]
fn lower_from(savings: &mut Vec<LabelCost>, start: usize, gain: u128)
    requires { start ≤ length savings.old.items }
    ensures { savings.new.items ≡ take start savings.old.items ++ lowered gain (drop start savings.old.items) }
{
    let mut kept = start;
    for place in start..savings.len() {
        let mut entry = savings[place];
        if gain < entry.cost {
            entry.cost -= gain;
            savings[kept] = entry;
            kept += 1;
        }
    }
    savings.truncate(kept);
}

/// Takes the gain off what stands from `start` on, and puts its further labels behind the others where choices are
/// kept.
#[inline(always)]
fn settle(
    savings: &mut Vec<LabelCost>,
    also: &mut Vec<u32, &Bump>,
    keeps: bool,
    start: usize,
    gain: Gain,
) -> Result<(), Memory>
    requires start { start ≤ length savings.old.items }
    requires above { AreAbove (drop start savings.old.items) }
    ensures savings { OnOk result (savings.new.items ≡ take start savings.old.items ++ lowered gain.gain (drop start savings.old.items)) }
    ensures also { OnOk result (IsTrue keeps → also.new.items ≡ also.old.items ++ more_labels gain (drop start savings.old.items)) }
{
    if gain.gain == 0 {
        return Ok(());
    }
    put_more(also, keeps, &savings[start..], gain)?;
    lower_from(savings, start, gain.gain);
    Ok(())
}

/// Joins what stands from `start` on with what one label saves beside it.
#[inline(always)]
fn join_one(
    savings: &mut Vec<LabelCost>,
    also: &mut Vec<u32, &Bump>,
    keeps: bool,
    start: usize,
    one: LabelCost,
    weights: &[u128],
) -> Result<Gain, Memory>
    requires start { start ≤ length savings.old.items }
    requires list { AreKept weights.now (drop start savings.old.items) }
    requires one { AreKept weights.now (one ∷ []) }
    requires room { saved (drop start savings.old.items) one.label + one.cost < 2 ^ 128 }
    ensures { IfOk result (λ g. IsJoined keeps weights.now (drop start savings.old.items) (one ∷ []) (take start savings.old.items) savings.new.items also.old.items also.new.items g) }
{
    let weight = weights[one.label as usize];
    // A label that alone saves its weight, and does so beside: it gains that, and saves as much as before.
    if is_alone(&savings[start..], one.label, weights) && one.cost == weight {
        return Ok(Gain {
            gain: weight,
            best: one.label,
        });
    }
    // Mostly two labels stand there, of which this is one: they are lowered where they stand.
    if let Some(pair) = pair_from(savings, start) {
        if pair.first.label == one.label {
            return join_first(savings, also, keeps, start, pair, one, weights);
        }
        if pair.second.label == one.label {
            return join_second(savings, also, keeps, start, pair, one, weights);
        }
    }
    let over = merge(savings, start, one, weight)?;
    let gain = Gain {
        gain: over,
        best: one.label,
    };
    settle(savings, also, keeps, start, gain)?;
    Ok(gain)
}

/// Joins what two parts save, which stands from `start` and from `middle` on.
#[inline(always)]
fn join_lists(
    savings: &mut Vec<LabelCost>,
    sums: &mut Vec<LabelCost>,
    also: &mut Vec<u32, &Bump>,
    keeps: bool,
    start: usize,
    middle: usize,
    weights: &[u128],
) -> Result<Gain, Memory>
    requires from { start ≤ middle }
    requires to { middle ≤ length savings.old.items }
    requires low { AreKept weights.now (take (middle - start) (drop start savings.old.items)) }
    requires high { AreKept weights.now (drop middle savings.old.items) }
    requires room { (d : ℕ) → saved (take (middle - start) (drop start savings.old.items)) d + saved (drop middle savings.old.items) d < 2 ^ 128 }
    ensures { IfOk result (λ g. IsJoined keeps weights.now (take (middle - start) (drop start savings.old.items)) (drop middle savings.old.items) (take start savings.old.items) savings.new.items also.old.items also.new.items g) }
{
    let gain = join(savings, sums, start, middle, weights)?;
    put_more(also, keeps, sums, gain)?;
    Ok(gain)
}

/// What is saved from the place on, if that is by one label alone.
fn last_one(savings: &[LabelCost], middle: usize) -> Option<LabelCost>
    requires { middle ≤ length savings.now }
    ensures { IfSome result (λ one. drop middle savings.now ≡ one ∷ []) }
{
    let [one] = &savings[middle..] else {
        return None;
    };
    Some(*one)
}

/// What one of two parts saves, if that is by one label alone: what was handed over, or else it is taken from the end or
/// from the front.
#[inline(always)]
fn taken(
    savings: &mut Vec<LabelCost>,
    start: usize,
    middle: usize,
    other: Option<LabelCost>,
) -> Option<LabelCost>
    requires from { start ≤ middle }
    requires to { middle ≤ length (with_one savings.old.items other) }
    requires apart { IsSome other → length savings.old.items ≡ middle }
    ensures { MatchOption result (savings.new.items ≡ with_one savings.old.items other) (λ one. IsTaken savings.new.items (with_one savings.old.items other) start middle one) }
{
    if let Some(one) = other {
        return Some(one);
    }
    if let Some(one) = last_one(savings, middle) {
        savings.truncate(middle);
        return Some(one);
    }
    if middle != start + 1 {
        return None;
    }
    let LabelCost { label, cost } = savings[start];
    savings.remove(start);
    Some(LabelCost { label, cost })
}

/// Joins what two parts save, which stands from `start` and from `middle` on, and puts the further labels of their
/// gain behind the others where choices are kept. What the other part saves by one label alone may be handed over in
/// place of that.
///
/// Where one of the parts saves by one label alone, as most do, no list is read but for a gain.
#[inline(always)]
pub fn join_parts(
    savings: &mut Vec<LabelCost>,
    sums: &mut Vec<LabelCost>,
    also: &mut Vec<u32, &Bump>,
    keeps: bool,
    start: usize,
    middle: usize,
    other: Option<LabelCost>,
    weights: &[u128],
) -> Result<Gain, Memory>
    requires from { start ≤ middle }
    requires to { middle ≤ length (with_one savings.old.items other) }
    requires apart { IsSome other → length savings.old.items ≡ middle }
    requires low { AreKept weights.now (take (middle - start) (drop start (with_one savings.old.items other))) }
    requires high { AreKept weights.now (drop middle (with_one savings.old.items other)) }
    requires room { (d : ℕ) → saved (take (middle - start) (drop start (with_one savings.old.items other))) d + saved (drop middle (with_one savings.old.items other)) d < 2 ^ 128 }
    ensures { IfOk result (λ g. IsJoined keeps weights.now (take (middle - start) (drop start (with_one savings.old.items other))) (drop middle (with_one savings.old.items other)) (take start (with_one savings.old.items other)) savings.new.items also.old.items also.new.items g) }
{
    let Some(one) = taken(savings, start, middle, other) else {
        return join_lists(savings, sums, also, keeps, start, middle, weights);
    };
    join_one(savings, also, keeps, start, one, weights)
}
