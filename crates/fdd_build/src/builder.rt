//! A builder of diagrams, which keeps what pairs of nodes came to.

use crate::halving::halved;
use crate::laying::Laying;
use crate::nothing::nothing_from;
use crate::overlay::Overlay;
use fdd_apply::{Results, apply};
use field_boxes::Rule;
use node_store::{NodeId, Store};
use razor_limits::Memory;
use std::alloc::Global;

/// A builder of the diagrams of rule lists, over one order and in one store.
///
/// It keeps what pairs of nodes came to, laid one over another. So a list that is much like an earlier one costs a walk
/// over the pairs that are new, and a lookup for each rule.
#[derive(Drop)]
pub struct Builder {
    pub(crate) laying: Laying,
    results: Results,
    /// Whether what pairs came to stays for later layings.
    pub(crate) keeps: bool,
}

impl Builder {
    ghost use Rattle.std.specs.Prelude.{◌≡◌, ℕ, List, IfOk};
    ghost use Rattle.field_boxes.specs.Headline.Fields.{AreValues};
    ghost use Rattle.node_store.specs.Levels.{IsLevel};
    ghost use Rattle.node_store.specs.Diagram.{Node, level_of, answer};
    ghost use Rattle.node_store.specs.Store.{Grows};
    ghost use Rattle.fdd_build.specs.declared.overlay.Overlay.TheVariants.{Answer};
    ghost use Rattle.fdd_build.specs.Overlay.{shown};
    ghost use Rattle.fdd_build.specs.Rules.{decided};
    ghost use Rattle.fdd_build.specs.Builders.{IsBuilderOf};

    /// A builder for lists one after another. The store gains the diagrams that answer 0 everywhere.
    pub fn new(alloc: Global, store: &mut Store, order: &[u8]) -> Result<Builder, Memory>
        requires { IsLevel order.now }
        ensures builder { IfOk result (IsBuilderOf store.new order.now) }
        ensures grows { Grows store.old store.new }
    {
        Builder::begun(alloc, store, order, true)
    }

    /// A builder for one list: what the pairs of one laying came to goes before the next, which takes less room and time.
    pub fn once(alloc: Global, store: &mut Store, order: &[u8]) -> Result<Builder, Memory>
        requires { IsLevel order.now }
        ensures builder { IfOk result (IsBuilderOf store.new order.now) }
        ensures grows { Grows store.old store.new }
    {
        Builder::begun(alloc, store, order, false)
    }

    /// A builder that has laid nothing yet.
    fn begun(alloc: Global, store: &mut Store, order: &[u8], keeps: bool) -> Result<Builder, Memory>
        requires { IsLevel order.now }
        ensures builder { IfOk result (IsBuilderOf store.new order.now) }
        ensures grows { Grows store.old store.new }
    {
        let nothing = nothing_from(alloc, store, order)?;
        let laying = Laying {
            overlay: Overlay::Answer,
            nothing,
        };
        Ok(Builder {
            laying,
            results: Results::new(alloc),
            keeps,
        })
    }

    /// The diagram that answers the decision of the first rule that matches, or 0 where none does. It reads
    /// the fields of the order, and no others.
    ///
    /// The store keeps what all its numbers mean, and may have gained nodes; what is kept of them is true, also after
    /// a refusal of memory.
    pub fn build(
        &mut self,
        alloc: Global,
        store: &mut Store,
        order: &[u8],
        rules: &[Rule],
    ) -> Result<NodeId, Memory>
        requires order { IsLevel order.now }
        requires builder { IsBuilderOf store.old order.now self.old }
        ensures level { IfOk result (λ id. level_of store.new id.0 ≡ order.now) }
        ensures answers { IfOk result (λ id. (values : List ℕ) → AreValues order.now values → answer store.new id.0 values ≡ decided order.now rules.now values) }
        ensures builder { IsBuilderOf store.new order.now self.new }
        ensures grows { Grows store.old store.new }
    {
        halved(alloc, self, store, order, rules)
    }

    /// Lays the diagram under one node over that under another.
    pub(crate) fn lay(
        &mut self,
        alloc: Global,
        store: &mut Store,
        order: &[u8],
        upper: NodeId,
        lower: NodeId,
    ) -> Result<NodeId, Memory>
        requires order { IsLevel order.now }
        requires builder { IsBuilderOf store.old order.now self.old }
        requires upper { level_of store.old upper.0 ≡ order.now }
        requires lower { level_of store.old lower.0 ≡ order.now }
        ensures level { IfOk result (λ id. level_of store.new id.0 ≡ order.now) }
        ensures answers { IfOk result (λ id. (values : List ℕ) → AreValues order.now values →
            answer store.new id.0 values ≡ shown Answer (answer store.old upper.0 values) (answer store.old lower.0 values)) }
        ensures builder { IsBuilderOf store.new order.now self.new }
        ensures grows { Grows store.old store.new }
    {
        self.begin_laying(alloc);
        let id = apply(
            alloc,
            &self.laying,
            store,
            &mut self.results,
            order,
            upper,
            lower,
        )?;
        Ok(id)
    }

    /// Lets what pairs came to go where it isn't kept.
    fn begin_laying(&mut self, alloc: Global)
        ensures { (nodes : List Node) (order : List ℕ) → IsBuilderOf nodes order self.old → IsBuilderOf nodes order self.new }
    {
        if !self.keeps {
            self.results.clear(alloc);
        }
    }
}
