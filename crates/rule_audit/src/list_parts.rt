//! The parts of a list, each with the diagram of what it decides.
ghost use Rattle.std.specs.Prelude.{◌≡◌, ◌/◌, List, length, take, drop, IfOk};
ghost use Rattle.field_boxes.specs.declared.rule.Rule as code;
ghost use Rattle.node_store.specs.Diagram.{Node};
ghost use Rattle.node_store.specs.Store.{Grows};
ghost use Rattle.fdd_build.specs.Nothing.{AreZeros};
ghost use Rattle.rule_audit.specs.Labels.{AllDecide};
ghost use Rattle.rule_audit.specs.Parts.{IsPart, Shows};

use crate::overlay::Overlay;
use fdd_build::build;
use field_boxes::Rule;
use node_store::{NodeId, Store, stated_order};
use razor_limits::Memory;
use std::alloc::Global;

/// A part of a list: its diagram by decisions, and its halves where it has more than one rule.
#[derive(Drop)]
pub(crate) enum ListPart {
    Alone(NodeId),
    Halves(NodeId, Box<ListPart>, Box<ListPart>),
}

impl ListPart {
    ghost use Rattle.std.specs.Prelude.{◌≡◌, IfOk};
    ghost use Rattle.node_store.specs.Store.{Grows};
    ghost use Rattle.rule_audit.specs.Labels.{AllDecide};
    ghost use Rattle.rule_audit.specs.Parts.{IsPart, shown_of};

    /// The part's diagram.
    pub fn shown(&self) -> NodeId
        ensures { result ≡ shown_of self.now }
    {
        match self {
            ListPart::Alone(shown) => *shown,
            ListPart::Halves(shown, _, _) => *shown,
        }
    }

    /// The list as a part of itself.
    pub fn of(alloc: Global, store: &mut Store, rules: &[Rule]) -> Result<ListPart, Memory>
        requires decide { AllDecide rules.now }
        ensures part { IfOk result (λ part. IsPart store.new rules.now part) }
        ensures grows { Grows store.old store.new }
    {
        let overlay = Overlay::of(alloc, store)?;
        let part = parted(alloc, &overlay, store, rules)?;
        Ok(part)
    }
}

/// The part of these rules, from those of their halves.
fn parted(
    alloc: Global,
    overlay: &Overlay,
    store: &mut Store,
    rules: &[Rule],
) -> Result<ListPart, Memory>
    requires zeros { AreZeros store.old overlay.now.zeros.items }
    requires decide { AllDecide rules.now }
    ensures part { IfOk result (λ part. IsPart store.new rules.now part) }
    ensures grows { Grows store.old store.new }
{
    if rules.len() < 2 {
        let shown = build(alloc, store, &stated_order(), rules)?;
        return Ok(ListPart::Alone(shown));
    }
    let (upper, lower) = rules.split_at(rules.len() / 2);
    let first = parted(alloc, overlay, store, upper)?;
    let second = parted(alloc, overlay, store, lower)?;
    let shown = overlay.lay(alloc, store, first.shown(), second.shown())?;
    halves(alloc, shown, first, second)
}

/// The part of two halves.
fn halves(
    alloc: Global,
    shown: NodeId,
    first: ListPart,
    second: ListPart,
) -> Result<ListPart, Memory>
    ensures { (nodes : List Node) (rules : List code.Rule) → Shows nodes rules shown →
        IsPart nodes (take (length rules / 2) rules) first → IsPart nodes (drop (length rules / 2) rules) second → IfOk result (λ part. IsPart nodes rules part) }
{
    let first = Box::new(alloc, first)?;
    let second = Box::new(alloc, second)?;
    Ok(ListPart::Halves(shown, first, second))
}
