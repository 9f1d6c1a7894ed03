//! The cheapest prefix list, with its rows, and room in which lists are worked out one after another.
ghost use Rattle.std.specs.Prelude.{◌≡◌, ◌≤◌, ◌<◌, ◌^◌, ℕ, List, IfOk, length, slice_index};
ghost use Rattle.std.specs.List.{All};
ghost use Rattle.prefix_min.specs.Pieces.{Follow, label_at, reach, weight_from};
ghost use Rattle.prefix_min.specs.PrefixList.{IsLeastWeight, IsRight, weight};
ghost use Rattle.prefix_min.specs.Choice.{IsChosen};
ghost use Rattle.prefix_min.specs.Order.{InOrder};
ghost use Rattle.prefix_min.specs.declared.row.PrefixRow.{PrefixRow};

use crate::field::Field;
use crate::piece::Piece;
use crate::plan::Plan;
use crate::row::{PrefixRow, sort};
use crate::stack::{CostAlone, Stack, WithChoices};
use bumpalo::Bump;
use field_boxes::Prefix;
use razor_limits::Memory;
use std::alloc::Global;

/// Room in which lists and costs are worked out, one after another: each takes what the one before has left.
#[derive(Drop)]
pub struct Costing<'a> {
    alloc: Global,
    stack: Stack<'a>,
}

impl<'a> Costing<'a> {
    /// Room that grows as it is needed; what the parts choose lies in the arena.
    pub fn new(alloc: Global, arena: &'a Bump) -> Costing<'a> {
        Costing {
            alloc,
            stack: Stack::new(alloc, arena),
        }
    }

    /// What the cheapest prefix list of the pieces' function over the values of `width` bits costs: the cost
    /// that [`minimise`](crate::minimise) gives with it.
    ///
    /// The weight of label `k` is the `k`-th of `weights`. No rows are chosen, and nothing is allocated once an
    /// earlier call has made the room. After a refusal of memory the room serves as before.
    pub fn minimum(&mut self, pieces: &[Piece], weights: &[u128], width: u8) -> Result<u128, Memory>
        requires wide { width ≤ 32 }

        // The pieces follow each other up to the greatest value, and each label has a weight.
        requires follow { Follow (length weights.now) 0 pieces.now }
        requires whole { reach 0 pieces.now ≡ 2 ^ width }

        // The weights of the labels of all values stay within 2^104 together.
        requires light { weight_from weights.now 0 pieces.now ≤ 2 ^ 104 }
        ensures { IfOk result (λ n. IsLeastWeight weights.now width (label_at pieces.now) n) }
    {
        self.stack.clear();
        let field = Field { pieces, weights };
        let _label = field.whole::<CostAlone>(&mut self.stack, width)?;
        Ok(self.stack.cost)
    }

    /// The cheapest prefix list of the pieces' function over the values of `width` bits: the list that
    /// [`minimise`](crate::minimise) gives.
    ///
    /// Once an earlier call has made the room, nothing is allocated but the rows. After a refusal of memory the
    /// room serves as before.
    pub fn cheapest(
        &mut self,
        pieces: &[Piece],
        weights: &[u128],
        width: u8,
    ) -> Result<Cheapest, Memory>
        requires wide { width ≤ 32 }

        // The pieces follow each other up to the greatest value, and each label has a weight.
        requires follow { Follow (length weights.now) 0 pieces.now }
        requires whole { reach 0 pieces.now ≡ 2 ^ width }

        // The weights of the labels of all values stay within 2^104 together.
        requires light { weight_from weights.now 0 pieces.now ≤ 2 ^ 104 }

        ensures right { IfOk result (λ c. IsRight width (label_at pieces.now) c.rows.items) }
        ensures labels { IfOk result (λ c. All (λ r. r.label < length weights.now) c.rows.items) }
        ensures weighs { IfOk result (λ c. weight weights.now c.rows.items ≡ c.cost) }

        // No right list weighs less, whatever its order, its repeats and its rows that are never first.
        ensures least { IfOk result (λ c. (rows : List PrefixRow) → IsRight width (label_at pieces.now) rows → c.cost ≤ weight weights.now rows) }
        ensures order { IfOk result (λ c. InOrder c.rows.items) }

        // Of the lists that weigh least this one is chosen: a row that weighs something saves something, and has
        // the least label with which it does.
        ensures chosen { IfOk result (λ c. All (λ r. 0 < slice_index weights.now r.label → IsChosen weights.now (label_at pieces.now) width c.rows.items r) c.rows.items) }
    {
        self.stack.clear();
        let field = Field { pieces, weights };
        self.stack.choices.reserve(usual_choices(pieces, width))?;
        let label = field.whole::<WithChoices>(&mut self.stack, width)?;
        let plan = Plan {
            width,
            choices: &self.stack.choices,
            also: &self.stack.also,
        };
        let mut rows = Vec::new(self.alloc);
        let prefix = Prefix { value: 0, len: 0 };
        rows.push(PrefixRow { prefix, label })?;
        plan.write(&mut rows, 0, self.stack.choices.len(), label)?;
        rows.reverse();
        sort(&mut rows);
        let cost = self.stack.cost;
        Ok(Cheapest { rows, cost })
    }
}

/// How many choices the parts of pieces of like lengths make: one for each bit of a piece, and few more. With room for
/// them the arena keeps no shorter lists behind.
fn usual_choices(pieces: &[Piece], width: u8) -> usize {
    let bits = usize::BITS - pieces.len().leading_zeros();
    let each = (u32::from(width) + 8).saturating_sub(bits);
    pieces.len().saturating_mul(each as usize)
}

/// A right list that weighs least, and its weight.
#[derive(Drop, Debug)]
pub struct Cheapest {
    pub rows: Vec<PrefixRow>,
    pub cost: u128,
}

/// The cheapest prefix list of the pieces' function over the values of `width` bits.
///
/// The weight of label `k` is the `k`-th of `weights`; a label that isn't there weighs nothing. Of several
/// cheapest lists this is chosen, from the field down: no row is written where it saves nothing, and a row
/// has the least label of the pieces that makes it cheapest. The field itself always has a row, and so has a
/// part of one label that doesn't inherit it, even where the label weighs nothing.
///
/// Time and room are in the order of the pieces times the width, however many labels there are. What the parts
/// choose lies in one arena, which is given up at the end.
pub fn minimise(
    alloc: Global,
    pieces: &[Piece],
    weights: &[u128],
    width: u8,
) -> Result<Cheapest, Memory>
    requires wide { width ≤ 32 }

    // The pieces follow each other up to the greatest value, and each label has a weight.
    requires follow { Follow (length weights.now) 0 pieces.now }
    requires whole { reach 0 pieces.now ≡ 2 ^ width }

    // The weights of the labels of all values stay within 2^104 together.
    requires light { weight_from weights.now 0 pieces.now ≤ 2 ^ 104 }

    ensures right { IfOk result (λ c. IsRight width (label_at pieces.now) c.rows.items) }
    ensures labels { IfOk result (λ c. All (λ r. r.label < length weights.now) c.rows.items) }
    ensures weighs { IfOk result (λ c. weight weights.now c.rows.items ≡ c.cost) }

    // No right list weighs less, whatever its order, its repeats and its rows that are never first.
    ensures least { IfOk result (λ c. (rows : List PrefixRow) → IsRight width (label_at pieces.now) rows → c.cost ≤ weight weights.now rows) }
    ensures order { IfOk result (λ c. InOrder c.rows.items) }

    // Of the lists that weigh least this one is chosen: a row that weighs something saves something, and has
    // the least label with which it does.
    ensures chosen { IfOk result (λ c. All (λ r. 0 < slice_index weights.now r.label → IsChosen weights.now (label_at pieces.now) width c.rows.items r) c.rows.items) }
{
    let arena = Bump::new(alloc);
    let mut costing = Costing::new(alloc, &arena);
    costing.cheapest(pieces, weights, width)
}
