//! One diagram laid over another: where the upper one answers 0, the lower one shows.
ghost use Rattle.std.specs.Prelude.{◌≡◌, ℕ, IfOk, IfSome};
ghost use Rattle.node_store.specs.Levels.{IsLevel};
ghost use Rattle.node_store.specs.Store.{Grows};
ghost use Rattle.fdd_apply.specs.Applied.{AreAt, IsApplied};
ghost use Rattle.fdd_build.specs.Nothing.{AreZeros, IsZero};

use fdd_apply::{Operation, Pair, Results, apply};
use fdd_build::build;
use node_store::{NodeId, Store, stated_order};
use razor_limits::Memory;
use smallvec::SmallVec;
use std::alloc::Global;

/// A node for a level and for each one after it.
type Nodes = SmallVec<NodeId, 6>;

/// How diagrams are laid, with what adds nothing: for each level of the stated order the node that answers 0
/// everywhere, the one with most fields first.
#[derive(Drop)]
pub(crate) struct Overlay {
    pub zeros: Nodes,
}

impl Overlay {
    ghost use Rattle.std.specs.Prelude.{◌≡◌, ℕ, List, IfOk, IfSome};
    ghost use Rattle.field_boxes.specs.Headline.Fields.{stated, IsHeader};
    ghost use Rattle.node_store.specs.Levels.{IsLevel};
    ghost use Rattle.node_store.specs.Diagram.{Node, level_of, answer};
    ghost use Rattle.node_store.specs.Store.{Grows};
    ghost use Rattle.fdd_apply.specs.Applied.{AreAt, IsApplied};
    ghost use Rattle.fdd_build.specs.Nothing.{IsZero, AreZeros};
    ghost use Rattle.rule_audit.specs.Parts.{over};

    /// The nodes that answer 0, which the store gains where they aren't there.
    pub fn of(alloc: Global, store: &mut Store) -> Result<Overlay, Memory>
        ensures zeros { IfOk result (λ overlay. AreZeros store.new overlay.zeros.items) }
        ensures grows { Grows store.old store.new }
    {
        let zeros = zeros_from(alloc, store, &stated_order())?;
        Ok(Overlay { zeros })
    }

    /// Lays the diagram under one node over that under another.
    pub fn lay(
        &self,
        alloc: Global,
        store: &mut Store,
        upper: NodeId,
        lower: NodeId,
    ) -> Result<NodeId, Memory>
        requires zeros { AreZeros store.old self.now.zeros.items }
        requires upper { level_of store.old upper.0 ≡ stated }
        requires lower { level_of store.old lower.0 ≡ stated }
        ensures level { IfOk result (λ id. level_of store.new id.0 ≡ stated) }
        ensures answers { IfOk result (λ id. (values : List ℕ) → IsHeader values →
            answer store.new id.0 values ≡ over (answer store.old upper.0 values) (answer store.old lower.0 values)) }
        ensures grows { Grows store.old store.new }
    {
        let mut results = Results::new(alloc);
        let id = apply(
            alloc,
            self,
            store,
            &mut results,
            &stated_order(),
            upper,
            lower,
        )?;
        Ok(id)
    }

    /// What comes of a pair of which one node answers 0 everywhere, where 0 leaves the other one's answers as they are.
    pub fn beside(&self, store: &Store, level: &[u8], pair: Pair) -> Option<NodeId>
        requires zeros { AreZeros store.now self.now.zeros.items }
        requires level { IsLevel level.now }
        requires pair { AreAt store.now level.now pair }
        ensures { (f : ℕ → ℕ → ℕ) → ((n : ℕ) → f 0 n ≡ n) → ((n : ℕ) → f n 0 ≡ n) → IfSome result (λ id. IsApplied f store.now pair id) }
    {
        let zero = self.zero(level.len())?;
        other(store, level, zero, pair)
    }

    /// The node with so many fields to read, where there is one.
    fn zero(&self, fields: usize) -> Option<NodeId>
        ensures { (nodes : List Node) → AreZeros nodes self.now.zeros.items → IfSome result (IsZero nodes) }
    {
        let zeros = self.zeros.as_slice();
        if fields < zeros.len() {
            Some(zeros[zeros.len() - 1 - fields])
        } else {
            None
        }
    }
}

impl Operation for Overlay {
    ghost use Rattle.fdd_build.specs.Nothing.{AreZeros};
    ghost use Rattle.fdd_build.specs.Lasting.{zeros_last};
    ghost use Rattle.rule_audit.specs.Parts.{over};

    ghost combined = { λ _. over };

    ghost suits = { λ overlay nodes. AreZeros nodes overlay.zeros.items };

    fn of(&self, left: u32, right: u32) -> u32 {
        if left == 0 { right } else { left }
    }

    fn at_sight(&self, store: &Store, level: &[u8], pair: Pair) -> Option<NodeId> {
        self.beside(store, level, pair)
    }

    ghost lasts = { λ overlay old new grows zeros. zeros_last old new overlay.zeros.items grows zeros };
}

/// The node of a pair beside the one that answers 0 everywhere.
fn other(store: &Store, level: &[u8], zero: NodeId, pair: Pair) -> Option<NodeId>
    requires zero { IsZero store.now zero }
    requires level { IsLevel level.now }
    requires pair { AreAt store.now level.now pair }
    ensures { (f : ℕ → ℕ → ℕ) → ((n : ℕ) → f 0 n ≡ n) → ((n : ℕ) → f n 0 ≡ n) → IfSome result (λ id. IsApplied f store.now pair id) }
{
    let _store = store;
    let _level = level;
    if pair.left == zero {
        return Some(pair.right);
    }
    if pair.right == zero {
        return Some(pair.left);
    }
    None
}

/// For the level and each one after it the node that answers 0 for all values: what no rules decide.
fn zeros_from(alloc: Global, store: &mut Store, level: &[u8]) -> Result<Nodes, Memory>
    requires { IsLevel level.now }
    ensures zeros { IfOk result (λ ids. AreZeros store.new ids.items) }
    ensures grows { Grows store.old store.new }
{
    let id = build(alloc, store, level, &[])?;
    if level.is_empty() {
        let mut ids = SmallVec::new(alloc);
        ids.push(id)?;
        return Ok(ids);
    }
    let mut ids = zeros_from(alloc, store, &level[1..])?;
    ids.insert(0, id)?;
    Ok(ids)
}
