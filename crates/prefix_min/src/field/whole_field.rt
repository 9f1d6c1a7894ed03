//! The whole field, from its halves, and the label of its row.
ghost use Rattle.std.specs.Prelude.{◌≡◌, ◌≤◌, ◌<◌, ◌^◌, ℕ, [], length, IfOk, MatchOption, slice_index};
ghost use Rattle.prefix_min.specs.Costs.{Lists, RisesFrom};
ghost use Rattle.prefix_min.specs.Field.{IsFull, IsFullLabel, IsLeastFull, IsWhole, SomeFull, lesser};
ghost use Rattle.prefix_min.specs.Savings.{saved};
ghost use Rattle.prefix_min.specs.Pieces.{reach, AreFit};

use crate::field::Field;
use crate::parts::{middle, top};
use crate::savings::{LabelCost, join};
use crate::stack::{Keeping, Stack};
use razor_limits::Memory;

impl Field<'_> {
    /// Does the halves of the whole field, and gives the label of its row.
    pub fn whole<K: Keeping>(&self, stack: &mut Stack, width: u8) -> Result<u32, Memory>
        requires fit { AreFit self.now.weights.now self.now.pieces.now }
        requires wide { width ≤ 32 }
        requires all { 2 ^ width ≡ reach 0 self.now.pieces.now }
        requires next { stack.old.next ≡ 0 }
        requires cost { stack.old.cost ≡ 0 }
        requires choices { stack.old.choices.items ≡ [] }
        requires savings { stack.old.savings.items ≡ [] }
        ensures { IfOk result (λ y. IsWhole K.KEEPS self.now.weights.now self.now.pieces.now width y stack.new.cost stack.new.choices.items stack.new.also.items) }
    {
        let piece = self.pieces[0];
        let top = top(width, 0);
        if top <= piece.hi {
            stack.cost = self.weights[piece.label as usize];
            return Ok(piece.label);
        }
        let half = width - 1;
        let middle = middle(width, 0);
        let start = stack.savings.len();
        self.part::<K>(stack, half, 0)?;
        let end = stack.savings.len();
        self.part::<K>(stack, half, middle)?;
        let gain = join(
            &mut stack.savings,
            &mut stack.sums,
            start,
            end,
            self.weights,
        )?;
        stack.cost -= gain.gain;
        if gain.gain == 0 {
            return Ok(self.full_label(&stack.savings));
        }
        Ok(gain.best)
    }

    /// The least label of the pieces that saves all that it weighs.
    fn full_label(&self, savings: &[LabelCost]) -> u32
        requires fit { AreFit self.now.weights.now self.now.pieces.now }
        requires rise { RisesFrom 0 savings.now }
        requires places { (d : ℕ) → Lists savings.now d → d < length self.now.weights.now }
        requires most { (d : ℕ) → saved savings.now d ≤ slice_index self.now.weights.now d }
        requires some { SomeFull self.now.weights.now savings.now self.now.pieces.now }
        ensures { IsFullLabel self.now.weights.now savings.now self.now.pieces.now (length self.now.pieces.now) result }
    {
        let mut best = first_full(savings, self.weights);
        for piece in self.pieces {
            if self.weights[piece.label as usize] == 0 {
                best = Some(lesser(best, piece.label));
            }
        }
        best.unwrap_or(0)
    }
}

/// The first label that saves all that it weighs.
fn first_full(savings: &[LabelCost], weights: &[u128]) -> Option<u32>
    requires rise { RisesFrom 0 savings.now }
    requires places { (d : ℕ) → Lists savings.now d → d < length weights.now }
    ensures { MatchOption result ((d : ℕ) → Lists savings.now d → IsFull weights.now savings.now d → ⊥) (λ y. IsLeastFull weights.now savings.now y) }
{
    for entry in savings {
        if entry.cost == weights[entry.label as usize] {
            return Some(entry.label);
        }
    }
    None
}

/// The lesser one of the label and the best so far.
fn lesser(best: Option<u32>, label: u32) -> u32
    ensures { result ≡ lesser best label }
{
    match best {
        None => label,
        Some(other) => other.min(label),
    }
}
