//! What the parts choose to write.
ghost use Rattle.std.specs.Prelude.{◌≡◌, ◌++◌, ◌∷◌, [], ◌+◌, ◌<◌, IfOk, IsTrue, OnOk, length, ◌≤◌, ◌-◌, reverse, slice_index_or, take, drop};
ghost use Rattle.prefix_min.specs.Plan.{Forest, IsLaid, IsTopped, among, no_choice, own_choice, rows_of, silent};

use crate::appending::append;
use crate::parts::FieldPart;
use crate::row::PrefixRow;
use crate::savings::Gain;
use bumpalo::Bump;
use field_boxes::Prefix;
use razor_limits::Memory;

/// A part writes a row of the label, unless it inherits that or one of the further labels.
#[derive(Clone, Copy)]
pub struct Choice {
    pub value: u32,
    pub bits: u32,
    pub label: u32,
    /// Place of the first choice below this part.
    pub below: u32,
    /// Place of the first further label.
    pub also: u32,
    /// Place behind the last one.
    pub end: u32,
}

/// A choice of the part, where its places have 32 bits; with more it is refused as where memory is refused.
#[tactic(auto, using(std::proofs::lemmas::Nat::le_or_l, std::proofs::lemmas::Nat::le_or_r))]
#[inline(always)]
fn choice_of(
    label: u32,
    part: FieldPart,
    below: usize,
    also: usize,
    end: usize,
) -> Result<Choice, Memory>
    ensures { IfOk result (λ choice. choice ≡ own_choice part.low part.bits label below also end) }
{
    if (below | also | end) > u32::MAX as usize {
        return Err(Memory);
    }
    Ok(Choice {
        value: part.low,
        bits: u32::from(part.bits),
        label,
        below: below as u32,
        also: also as u32,
        end: end as u32,
    })
}

/// Whether the label is one of these.
fn among(labels: &[u32], label: u32) -> bool
    ensures { result ≡ among labels.now label }
{
    for &other in labels {
        if other == label {
            return true;
        }
    }
    false
}

/// Puts down that a part writes a row of the label unless it inherits it, where choices are kept.
#[inline(always)]
pub fn put(
    choices: &mut Vec<Choice, &Bump>,
    keeps: bool,
    also: usize,
    label: u32,
    part: FieldPart,
    below: usize,
) -> Result<(), Memory>
    ensures { OnOk result (IsTrue keeps → choices.new.items ≡ choices.old.items ++ own_choice part.low part.bits label below also also ∷ []) }
{
    if !keeps {
        return Ok(());
    }
    let choice = choice_of(label, part, below, also, also)?;
    append(choices, choice)
}

/// Whether the last choice stands at the place or above it, and is of the label.
fn is_last_of(choices: &[Choice], below: usize, label: u32) -> bool
    ensures { IsTrue result → (below < length choices.now) × ((slice_index_or choices.now (length choices.now - 1) no_choice).label ≡ label) }
{
    if choices.len() <= below {
        return false;
    }
    choices[choices.len() - 1].label == label
}

/// Puts down what a part with this gain chooses, where choices are kept. Its further labels stand between two places.
///
/// Where there are none, the last choice below the part goes if it is of the same label: it would always inherit that.
#[inline(always)]
pub fn choose(
    choices: &mut Vec<Choice, &Bump>,
    keeps: bool,
    gain: Gain,
    part: FieldPart,
    below: usize,
    also: usize,
    end: usize,
) -> Result<(), Memory>
    ensures { OnOk result (IsTrue keeps → IsTopped gain part.low part.bits below also end choices.old.items choices.new.items) }
{
    if !keeps || gain.gain == 0 {
        return Ok(());
    }
    let choice = choice_of(gain.best, part, below, also, end)?;
    if also == end && is_last_of(choices, below, gain.best) {
        let last = choices.len() - 1;
        choices[last] = choice;
        return Ok(());
    }
    append(choices, choice)
}

/// The choices of parts that are done, and how many bits the field has.
#[derive(Clone, Copy)]
pub struct Plan<'a> {
    pub width: u8,
    pub choices: &'a [Choice],
    pub also: &'a [u32],
}

impl Plan<'_> {
    /// Whether a choice writes no row where the label is inherited.
    fn is_silent(&self, choice: Choice, inherited: u32) -> bool
        requires ends { choice.also ≤ choice.end }
        requires within { choice.end ≤ length self.now.also.now }
        ensures { result ≡ silent choice (take (choice.end - choice.also) (drop choice.also self.now.also.now)) inherited }
    {
        choice.label == inherited
            || among(
                &self.also[choice.also as usize..choice.end as usize],
                inherited,
            )
    }

    /// Writes the rows of the choices between two places, the last first.
    pub fn write(
        &self,
        rows: &mut Vec<PrefixRow>,
        from: usize,
        to: usize,
        inherited: u32,
    ) -> Result<(), Memory>
        requires { (forest : Forest) × IsLaid self.now.choices.now self.now.also.now from to forest }
        ensures { OnOk result ((forest : Forest) → IsLaid self.now.choices.now self.now.also.now from to forest → rows.new.items ≡ rows.old.items ++ reverse (rows_of self.now.width forest inherited)) }
    {
        let mut until = to;
        while from < until {
            until -= 1;
            let choice = self.choices[until];
            if self.is_silent(choice, inherited) {
                continue;
            }
            let prefix = Prefix {
                value: choice.value,
                len: u32::from(self.width).saturating_sub(choice.bits) as u8,
            };
            rows.push(PrefixRow {
                prefix,
                label: choice.label,
            })?;
            let below = choice.below as usize;
            self.write(rows, below, until, choice.label)?;
            until = below;
        }
        Ok(())
    }
}
