//! What each part of the field costs and saves, from the parts in which a piece ends up.
ghost use Rattle.std.specs.Prelude.{◌≡◌, ◌≤◌, ◌<◌, ◌+◌, ◌%◌, ◌^◌, ℕ, false, [], length, OnOk, IfOk, IfSome, IsSome, slice_index, drop};
ghost use Rattle.prefix_min.specs.Growth.{IsBuilt, IsBeside, IsHalf, IsPut, IsStretch, done_of, end_of, handed};
ghost use Rattle.prefix_min.specs.Pieces.{reach, AreFit, IsNext, weight_below};

mod whole_field;

use crate::parts::{FieldPart, about, end, ending, middle, widest};
use crate::piece::Piece;
use crate::plan::{choose, put};
use crate::savings::merging::join_parts;
use crate::savings::{Gain, LabelCost, is_alone, keep, saving_of};
use crate::stack::{Keeping, Stack};
use razor_limits::Memory;

/// What the parts are made of.
#[derive(Clone, Copy)]
pub struct Field<'b> {
    pub pieces: &'b [Piece],
    pub weights: &'b [u128],
}

impl Field<'_> {
    /// Does the part of `bits` bits from `low` on.
    pub fn part<K: Keeping>(&self, stack: &mut Stack, bits: u8, low: u32) -> Result<(), Memory>
        requires fit { AreFit self.now.weights.now self.now.pieces.now }
        requires next { IsNext self.now.pieces.now stack.old.next low }
        requires wide { bits ≤ 32 }
        requires aligned { low % 2 ^ bits ≡ 0 }
        requires within { low + 2 ^ bits ≤ reach 0 self.now.pieces.now }
        requires light { stack.old.cost ≤ weight_below self.now.weights.now 0 self.now.pieces.now low }
        ensures { OnOk result (IsBuilt K.KEEPS self.now.weights.now self.now.pieces.now bits low (done_of stack.old) (done_of stack.new) stack.new.next) }
    {
        let one = self.apart::<K>(stack, bits, low)?;
        keep(&mut stack.savings, one)
    }

    /// Does the part of `bits` bits from `low` on. What it saves stands behind the others, or is handed over where
    /// that is by one label alone.
    #[inline(always)]
    #[cycle(growing)]
    fn apart<K: Keeping>(
        &self,
        stack: &mut Stack,
        bits: u8,
        low: u32,
    ) -> Result<Option<LabelCost>, Memory>
        requires fit { AreFit self.now.weights.now self.now.pieces.now }
        requires next { IsNext self.now.pieces.now stack.old.next low }
        requires wide { bits ≤ 32 }
        requires aligned { low % 2 ^ bits ≡ 0 }
        requires within { low + 2 ^ bits ≤ reach 0 self.now.pieces.now }
        requires light { stack.old.cost ≤ weight_below self.now.weights.now 0 self.now.pieces.now low }
        ensures built { IfOk result (λ one. IsBuilt K.KEEPS self.now.weights.now self.now.pieces.now bits low (done_of stack.old) (handed (done_of stack.new) one) stack.new.next) }
        ensures apart { IfOk result (λ one. IsSome one → stack.new.savings.items ≡ stack.old.savings.items) }
    {
        let first = stack.next;
        let piece = self.pieces[first];
        let whole = FieldPart { low, bits };
        let limit = end(whole);
        if u64::from(piece.hi) + 1 < limit {
            self.grown::<K>(stack, bits, low)?;
            return Ok(None);
        }
        let one = self.lone::<K>(stack, piece.label, whole)?;
        stack.next = self.behind(first, limit);
        Ok(one)
    }

    /// Does a part in which the first piece ends, from the greatest part on that ends where this piece does.
    #[inline(never)]
    #[cycle(growing)]
    fn grown<K: Keeping>(&self, stack: &mut Stack, bits: u8, low: u32) -> Result<(), Memory>
        requires fit { AreFit self.now.weights.now self.now.pieces.now }
        requires next { IsNext self.now.pieces.now stack.old.next low }
        requires wide { bits ≤ 32 }
        requires aligned { low % 2 ^ bits ≡ 0 }
        requires within { low + 2 ^ bits ≤ reach 0 self.now.pieces.now }
        requires light { stack.old.cost ≤ weight_below self.now.weights.now 0 self.now.pieces.now low }
        requires ends { end_of self.now.pieces.now stack.old.next + 1 < low + 2 ^ bits }
        ensures { OnOk result (IsBuilt K.KEEPS self.now.weights.now self.now.pieces.now bits low (done_of stack.old) (done_of stack.new) stack.new.next) }
    {
        let first = stack.next;
        let piece = self.pieces[first];
        let start = stack.savings.len();
        let below = stack.choices.len();
        let mut part = ending(piece.hi, bits);
        self.one::<K>(stack, piece.label, part)?;
        stack.next = first + 1;
        let mut stretches = false;
        while part.bits < bits {
            if let Some(wide) = self.stretch(stack, start, piece.label, part, bits, stretches) {
                let also = stack.also.len();
                let gain = Gain {
                    gain: self.weights[piece.label as usize],
                    best: piece.label,
                };
                choose(&mut stack.choices, K::KEEPS, gain, wide, below, also, also)?;
                stack.next = self.behind(stack.next, end(wide));
                part = wide;
                stretches = false;
                continue;
            }
            let about = about(part);
            let middle = stack.savings.len();
            let other = self.beside::<K>(stack, first, part, about)?;
            let also = stack.also.len();
            let gain = join_parts(
                &mut stack.savings,
                &mut stack.sums,
                &mut stack.also,
                K::KEEPS,
                start,
                middle,
                other,
                self.weights,
            )?;
            stack.cost -= gain.gain;
            stretches = gain.best == piece.label;
            let end = stack.also.len();
            choose(&mut stack.choices, K::KEEPS, gain, about, below, also, end)?;
            part = about;
        }
        Ok(())
    }

    /// Does the other half of the part about this one. Below this one all values have the first piece's label. What
    /// it saves stands behind the others, or is handed over where that is by one label alone.
    #[inline(always)]
    #[cycle(growing)]
    fn beside<K: Keeping>(
        &self,
        stack: &mut Stack,
        first: usize,
        part: FieldPart,
        about: FieldPart,
    ) -> Result<Option<LabelCost>, Memory>
        requires fit { AreFit self.now.weights.now self.now.pieces.now }
        requires next { IsNext self.now.pieces.now stack.old.next (part.low + 2 ^ part.bits) }
        requires wide { part.bits < 32 }
        requires half { IsHalf self.now.pieces.now first part about }
        requires light { stack.old.cost ≤ weight_below self.now.weights.now 0 self.now.pieces.now (part.low + 2 ^ part.bits) }
        ensures built { IfOk result (λ one. IsBeside K.KEEPS self.now.weights.now self.now.pieces.now first part about (done_of stack.old) (handed (done_of stack.new) one) stack.old.next stack.new.next) }
        ensures apart { IfOk result (λ one. IsSome one → stack.new.savings.items ≡ stack.old.savings.items) }
    {
        if about.low < part.low {
            let lower = FieldPart {
                low: about.low,
                bits: part.bits,
            };
            return self.lone::<K>(stack, self.pieces[first].label, lower);
        }
        self.apart::<K>(stack, part.bits, end(part) as u32)
    }

    /// Puts down a part of one label, and what it saves behind the others.
    #[inline(always)]
    fn one<K: Keeping>(&self, stack: &mut Stack, label: u32, part: FieldPart) -> Result<(), Memory>
        requires place { label < length self.now.weights.now }
        requires room { stack.old.cost + slice_index self.now.weights.now label < 2 ^ 128 }
        ensures { OnOk result (IsPut K.KEEPS self.now.weights.now label part (done_of stack.old) (done_of stack.new) stack.old.next stack.new.next) }
    {
        let saving = self.lone::<K>(stack, label, part)?;
        keep(&mut stack.savings, saving)
    }

    /// Puts down a part of one label, and hands over what it saves.
    #[inline(always)]
    fn lone<K: Keeping>(
        &self,
        stack: &mut Stack,
        label: u32,
        part: FieldPart,
    ) -> Result<Option<LabelCost>, Memory>
        requires place { label < length self.now.weights.now }
        requires room { stack.old.cost + slice_index self.now.weights.now label < 2 ^ 128 }
        ensures put { IfOk result (λ one. IsPut K.KEEPS self.now.weights.now label part (done_of stack.old) (handed (done_of stack.new) one) stack.old.next stack.new.next) }
        ensures apart { stack.new.savings.items ≡ stack.old.savings.items }
    {
        let weight = self.weights[label as usize];
        stack.cost += weight;
        let below = stack.choices.len();
        let also = stack.also.len();
        put(&mut stack.choices, K::KEEPS, also, label, part, below)?;
        Ok(saving_of(label, weight))
    }

    /// The place of the first piece that reaches the limit, where the one at this place reaches it or ends before.
    fn behind(&self, place: usize, limit: u64) -> usize
        requires fit { AreFit self.now.weights.now self.now.pieces.now }
        requires inside { place < length self.now.pieces.now }
        requires reached { limit ≤ end_of self.now.pieces.now place + 1 }
        ensures { (v : ℕ) → v ≤ limit → v < end_of self.now.pieces.now place + 1 → IsNext self.now.pieces.now place v → IsNext self.now.pieces.now result limit }
    {
        if u64::from(self.pieces[place].hi) < limit {
            place + 1
        } else {
            place
        }
    }

    /// The greatest part about this one, of no more than `most` bits, beside which there is only the label
    /// by which alone this one saves anything, if there is a greater one. It is looked for only where it may be.
    #[inline(always)]
    fn stretch(
        &self,
        stack: &Stack,
        start: usize,
        label: u32,
        part: FieldPart,
        most: u8,
        may: bool,
    ) -> Option<FieldPart>
        requires place { label < length self.now.weights.now }
        requires start { start ≤ length stack.now.savings.items }
        requires next { IsNext self.now.pieces.now stack.now.next (part.low + 2 ^ part.bits) }
        requires wide { most ≤ 32 }
        requires less { part.bits ≤ most }
        requires aligned { part.low % 2 ^ part.bits ≡ 0 }
        ensures { IfSome result (λ wide. (part.bits < wide.bits) × IsStretch self.now.weights.now self.now.pieces.now (drop start stack.now.savings.items) label part most stack.now.next wide) }
    {
        if !may || !is_alone(&stack.savings[start..], label, self.weights) {
            return None;
        }
        let Some(piece) = self.pieces.get(stack.next) else {
            return None;
        };
        if piece.label != label {
            return None;
        }
        let wide = widest(part, most, u64::from(piece.hi) + 1);
        if wide.bits <= part.bits {
            return None;
        }
        Some(wide)
    }
}
