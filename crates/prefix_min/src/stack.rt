//! The state of a call: what the parts that are done save, cost and choose.
ghost use Rattle.std.specs.Prelude.{◌≡◌, ◌<◌, Bool, true, false, []};

use crate::plan::Choice;
use crate::savings::LabelCost;
use bumpalo::Bump;
use std::alloc::Global;

/// What the parts that are done save, part by part, and cost together.
#[derive(Drop)]
pub struct Stack<'a> {
    pub savings: Vec<LabelCost>,
    /// Room for the sums of two halves.
    pub sums: Vec<LabelCost>,
    /// Place of the first piece that reaches above the parts that are done.
    pub next: usize,
    pub cost: u128,
    /// What the parts that are done choose, where that is put down: those below a part before its own, in the call's
    /// arena.
    pub choices: Vec<Choice, &'a Bump>,
    /// The further labels of the choices.
    pub also: Vec<u32, &'a Bump>,
}

impl<'a> Stack<'a> {
    /// No part is done, and nothing is allocated.
    pub fn new(alloc: Global, arena: &'a Bump) -> Stack<'a>
        ensures next { result.next ≡ 0 }
        ensures cost { result.cost ≡ 0 }
        ensures savings { result.savings.items ≡ [] }
        ensures choices { result.choices.items ≡ [] }
    {
        Stack {
            savings: Vec::new(alloc),
            sums: Vec::new(alloc),
            next: 0,
            cost: 0,
            choices: Vec::new(arena),
            also: Vec::new(arena),
        }
    }

    /// Forgets the parts that are done, and keeps their room.
    pub fn clear(&mut self)
        ensures next { self.new.next ≡ 0 }
        ensures cost { self.new.cost ≡ 0 }
        ensures savings { self.new.savings.items ≡ [] }
        ensures choices { self.new.choices.items ≡ [] }
    {
        self.savings.clear();
        self.next = 0;
        self.cost = 0;
        self.choices.clear();
        self.also.clear();
    }
}

/// Whether what the parts choose is put down.
pub trait Keeping {
    ghost KEEPS: { Bool };

    const KEEPS: bool;
}

/// What the parts choose is put down.
pub struct WithChoices;

impl Keeping for WithChoices {
    ghost KEEPS = { true };

    const KEEPS: bool = true;
}

/// Only what the parts cost is told.
pub struct CostAlone;

impl Keeping for CostAlone {
    ghost KEEPS = { false };

    const KEEPS: bool = false;
}
