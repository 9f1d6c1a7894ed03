//! What a part saves, from what its halves save.
ghost use Rattle.std.specs.Prelude.{◌≡◌, ℕ, List, ◌++◌, ◌∷◌, ◌⊎◌, ◌<◌, ◌≤◌, ◌+◌, ◌-◌, ◌^◌, [], IfOk, IsTrue, OnOk, MatchOption, length, slice_index, take, drop};
ghost use Rattle.prefix_min.specs.Costs.{IsHead, Lists, RisesFrom, after};
ghost use Rattle.prefix_min.specs.Plan.{more_labels};
ghost use Rattle.prefix_min.specs.Savings.{AreSums, IsGain, alone, further, lowered, raised, saved, with_one};
ghost use Rattle.prefix_min.specs.declared.savings.LabelCost.{LabelCost};

pub(crate) mod merging;
mod pairs;

use crate::appending::append;
use bumpalo::Bump;
use razor_limits::Memory;

/// What is saved where the label is inherited.
#[derive(Clone, Copy)]
pub struct LabelCost {
    pub label: u32,
    pub cost: u128,
}

/// The most that a label saves above its weight, and the least label that does; no gain has no label.
#[derive(Clone, Copy)]
pub struct Gain {
    pub gain: u128,
    pub best: u32,
}

/// The gain, once a label saves so much.
fn raised(gain: Gain, label: u32, saves: u128, weight: u128) -> Gain
    ensures { result ≡ raised gain label saves weight }
{
    let over = saves.saturating_sub(weight);
    if gain.gain < over {
        Gain {
            gain: over,
            best: label,
        }
    } else {
        gain
    }
}

/// What the label saves, where it comes before all labels that are left, or is the first.
fn first_saved(left: &[LabelCost], label: u32) -> u128
    requires { RisesFrom label left.now }
    ensures { result ≡ saved left.now label }
{
    if let [first, ..] = left {
        if first.label == label {
            return first.cost;
        }
    }
    0
}

/// What is left once the label is taken from the front, if it stands there.
fn after<'a>(left: &'a [LabelCost], label: u32) -> &'a [LabelCost]
    ensures { result.now ≡ after label left.now }
{
    if let [first, rest @ ..] = left {
        if first.label == label {
            return rest;
        }
    }
    left
}

/// The least label that is left in either half.
fn least_left(low: &[LabelCost], high: &[LabelCost]) -> Option<u32>
    requires low_rises { RisesFrom 0 low.now }
    requires high_rises { RisesFrom 0 high.now }
    ensures { MatchOption result ((low.now ≡ []) × (high.now ≡ []))
        (λ d. RisesFrom d low.now × RisesFrom d high.now × (IsHead low.now d ⊎ IsHead high.now d)) }
{
    match (low, high) {
        ([], []) => None,
        ([first, ..], []) => Some(first.label),
        ([], [first, ..]) => Some(first.label),
        ([a, ..], [b, ..]) => Some(a.label.min(b.label)),
    }
}

/// Adds what the halves save, label by label.
fn add(
    sums: &mut Vec<LabelCost>,
    low: &[LabelCost],
    high: &[LabelCost],
    weights: &[u128],
) -> Result<Gain, Memory>
    requires low_rises { RisesFrom 0 low.now }
    requires high_rises { RisesFrom 0 high.now }
    requires places { (d : ℕ) → Lists low.now d ⊎ Lists high.now d → d < length weights.now }
    requires room { (d : ℕ) → saved low.now d + saved high.now d < 2 ^ 128 }
    ensures sums { OnOk result (AreSums low.now high.now sums.new.items) }
    ensures gain { IfOk result (λ g. IsGain weights.now low.now high.now g.gain g.best) }
{
    sums.clear();
    let mut gain = Gain { gain: 0, best: 0 };
    let mut low = low;
    let mut high = high;
    while let Some(label) = least_left(low, high) {
        let saves = first_saved(low, label) + first_saved(high, label);
        gain = raised(gain, label, saves, weights[label as usize]);
        sums.push(LabelCost { label, cost: saves })?;
        low = after(low, label);
        high = after(high, label);
    }
    Ok(gain)
}

/// Puts the sums, less the gain, behind the savings.
fn lower(savings: &mut Vec<LabelCost>, sums: &[LabelCost], gain: u128) -> Result<(), Memory>
    ensures { OnOk result (savings.new.items ≡ savings.old.items ++ lowered gain sums.now) }
{
    for entry in sums {
        if gain < entry.cost {
            savings.push(LabelCost {
                label: entry.label,
                cost: entry.cost - gain,
            })?;
        }
    }
    Ok(())
}

/// What a part of one label saves, unless that is nothing.
pub fn saving_of(label: u32, weight: u128) -> Option<LabelCost>
    ensures { (savings : List LabelCost) → with_one savings result ≡ savings ++ lowered 0 (record { label = label; cost = weight } ∷ []) }
{
    if weight == 0 {
        return None;
    }
    Some(LabelCost {
        label,
        cost: weight,
    })
}

/// Puts what was handed over behind the savings.
pub fn keep(savings: &mut Vec<LabelCost>, one: Option<LabelCost>) -> Result<(), Memory>
    ensures { OnOk result (savings.new.items ≡ with_one savings.old.items one) }
{
    if let Some(entry) = one {
        savings.push(entry)?;
    }
    Ok(())
}

/// Whether something is saved by this label alone, and all that it weighs.
#[inline(always)]
pub fn is_alone(savings: &[LabelCost], label: u32, weights: &[u128]) -> bool
    requires { label < length weights.now }
    ensures { IsTrue result → (savings.now ≡ alone weights.now label) × (0 < slice_index weights.now label) }
{
    let [one] = savings else {
        return false;
    };
    one.label == label && one.cost > 0 && one.cost == weights[label as usize]
}

/// Puts the labels beside the best that save the gain or more behind the others.
#[inline(always)]
fn put_further(also: &mut Vec<u32, &Bump>, sums: &[LabelCost], gain: Gain) -> Result<(), Memory>
    ensures { OnOk result (also.new.items ≡ also.old.items ++ further gain.gain gain.best sums.now) }
{
    for entry in sums {
        if gain.gain <= entry.cost && entry.label != gain.best {
            append(also, entry.label)?;
        }
    }
    Ok(())
}

/// Puts the further labels of a gain behind the others, where choices are kept.
#[inline(always)]
pub fn put_more(
    also: &mut Vec<u32, &Bump>,
    keeps: bool,
    sums: &[LabelCost],
    gain: Gain,
) -> Result<(), Memory>
    ensures { OnOk result (IsTrue keeps → also.new.items ≡ also.old.items ++ more_labels gain sums.now) }
{
    if !keeps || gain.gain == 0 {
        return Ok(());
    }
    put_further(also, sums, gain)
}

/// Joins what two halves save, which stands from `start` and from `middle` on.
pub fn join(
    savings: &mut Vec<LabelCost>,
    sums: &mut Vec<LabelCost>,
    start: usize,
    middle: usize,
    weights: &[u128],
) -> Result<Gain, Memory>
    requires from { start ≤ middle }
    requires to { middle ≤ length savings.old.items }
    requires low_rises { RisesFrom 0 (take (middle - start) (drop start savings.old.items)) }
    requires high_rises { RisesFrom 0 (drop middle savings.old.items) }
    requires places { (d : ℕ) → Lists (take (middle - start) (drop start savings.old.items)) d ⊎ Lists (drop middle savings.old.items) d → d < length weights.now }
    requires room { (d : ℕ) → saved (take (middle - start) (drop start savings.old.items)) d + saved (drop middle savings.old.items) d < 2 ^ 128 }
    ensures sums { OnOk result (AreSums (take (middle - start) (drop start savings.old.items)) (drop middle savings.old.items) sums.new.items) }
    ensures gain { IfOk result (λ g. IsGain weights.now (take (middle - start) (drop start savings.old.items)) (drop middle savings.old.items) g.gain g.best) }
    ensures savings { IfOk result (λ g. savings.new.items ≡ take start savings.old.items ++ lowered g.gain sums.new.items) }
{
    let gain = add(sums, &savings[start..middle], &savings[middle..], weights)?;
    savings.truncate(start);
    lower(savings, sums, gain.gain)?;
    Ok(gain)
}
