//! The diagram of the labels of a list, from the diagrams of its halves.
ghost use Rattle.std.specs.Prelude.{◌≡◌, ◌≤◌, ◌+◌, ◌*◌, length, ◌<◌, ℕ, List, [], ◌∷◌, true, IfOk};
ghost use Rattle.field_boxes.specs.Headline.Fields.{IsHeader, stated};
ghost use Rattle.node_store.specs.Diagram.{level_of, answer};
ghost use Rattle.node_store.specs.Store.{Grows};
ghost use Rattle.fdd_build.specs.Nothing.{AreZeros};
ghost use Rattle.rule_audit.specs.Labels.{is_open, labelled, AllBelow, AllDecide, StandAt};
ghost use Rattle.rule_audit.specs.Parts.{IsPart, Shows};

use crate::label::{Label, Next};
use crate::list_parts::ListPart;
use crate::overlay::Overlay;
use fdd_apply::{Operation, Pair, Results, apply};
use fdd_build::build;
use field_boxes::Rule;
use node_store::{NodeId, Store, stated_order};
use razor_limits::Memory;
use std::alloc::Global;
use std::slice::from_ref;

/// What labels speak of: the rules of a list, which of them are open, and the number of the first label.
///
/// A label tells of open rules alone. A header whose first rule isn't open is told by its decision.
#[derive(Drop)]
pub(crate) struct Labels<'a> {
    pub rules: &'a [Rule],
    pub left_open: &'a [bool],
    pub first: u32,
    /// Of which the nodes that answer 0 serve: they lay nothing over anything.
    pub overlay: Overlay,
    pub ghost long: { length left_open.now ≡ length rules.now },
    pub ghost room: { first + 3 * length rules.now ≤ 4294967296 },
}

impl<'a> Labels<'a> {
    ghost use Rattle.std.specs.Prelude.{◌≡◌, ◌<◌, ◌≤◌, ◌+◌, ℕ, List, length, false, IfOk};
    ghost use Rattle.std.specs.Bool.{OnFalse};
    ghost use Rattle.field_boxes.specs.Headline.Fields.{stated, AreValues};
    ghost use Rattle.node_store.specs.Diagram.{level_of, answer};
    ghost use Rattle.node_store.specs.Store.{Grows};
    ghost use Rattle.fdd_build.specs.Nothing.{AreZeros};
    ghost use Rattle.rule_audit.specs.Labels.{is_open, label_at, decision_of, joined, with_below};

    /// Whether one of so many rules from the place on is open.
    pub fn has_open(&self, from: usize, count: usize) -> bool
        requires { from + count ≤ length self.now.rules.now }
        ensures { OnFalse result ((k : ℕ) → from ≤ k → k < from + count → is_open self.now.left_open.now k ≡ false) }
    {
        for place in 0..count {
            if self.left_open[from + place] {
                return true;
            }
        }
        false
    }

    /// Lays the diagram of a part of the list over that of the part that follows it.
    pub fn lay(
        &self,
        alloc: Global,
        store: &mut Store,
        upper: NodeId,
        lower: NodeId,
    ) -> Result<NodeId, Memory>
        requires zeros { AreZeros store.old self.now.overlay.zeros.items }
        requires upper { level_of store.old upper.0 ≡ stated }
        requires lower { level_of store.old lower.0 ≡ stated }
        ensures level { IfOk result (λ id. level_of store.new id.0 ≡ stated) }
        ensures answers { IfOk result (λ id. (values : List ℕ) → AreValues stated values →
            answer store.new id.0 values ≡ joined self.now.first self.now.rules.now (answer store.old upper.0 values) (answer store.old lower.0 values)) }
        ensures grows { Grows store.old store.new }
    {
        let mut results = Results::new(alloc);
        let id = apply(
            alloc,
            self,
            store,
            &mut results,
            &stated_order(),
            upper,
            lower,
        )?;
        Ok(id)
    }

    /// The number of two parts of a list of which the lower follows the upper.
    #[tactic(auto, unfolding(crate::specs::Labels::joined))]
    fn joined(&self, upper: u32, lower: u32) -> u32
        ensures { result ≡ joined self.now.first self.now.rules.now upper lower }
    {
        if upper == 0 {
            return lower;
        }
        if lower == 0 {
            return upper;
        }
        self.below(upper, self.decision(lower))
    }

    /// The upper number once this decision comes behind it.
    fn below(&self, upper: u32, decision: u32) -> u32
        ensures { result ≡ with_below self.now.first self.now.rules.now upper (label_at self.now.first upper) decision }
    {
        let Some(label) = Label::at(self.first, upper) else {
            return upper;
        };
        match self.rules.get(label.place as usize) {
            Some(rule) => label.with_next(self.first, upper, rule, decision),
            None => upper,
        }
    }

    /// What a number decides: a label as its rule does.
    fn decision(&self, number: u32) -> u32
        ensures { result ≡ decision_of self.now.rules.now number (label_at self.now.first number) }
    {
        let Some(label) = Label::at(self.first, number) else {
            return number;
        };
        match self.rules.get(label.place as usize) {
            Some(rule) => rule.decision,
            None => 0,
        }
    }
}

impl<'a> Operation for Labels<'a> {
    ghost use Rattle.fdd_build.specs.Nothing.{AreZeros};
    ghost use Rattle.fdd_build.specs.Lasting.{zeros_last};
    ghost use Rattle.rule_audit.specs.Labels.{joined};

    ghost combined = { λ labels. joined labels.first labels.rules.now };

    ghost suits = { λ labels nodes. AreZeros nodes labels.overlay.zeros.items };

    fn of(&self, left: u32, right: u32) -> u32 {
        self.joined(left, right)
    }

    fn at_sight(&self, store: &Store, level: &[u8], pair: Pair) -> Option<NodeId> {
        self.overlay.beside(store, level, pair)
    }

    ghost lasts = { λ labels old new grows zeros. zeros_last old new labels.overlay.zeros.items grows zeros };
}

/// The diagram that answers, in the stated order of the fields, the label of each header whose first rule is
/// open, and what is decided of any other one.
pub(crate) fn diagram(
    alloc: Global,
    labels: &Labels,
    store: &mut Store,
    part: &ListPart,
) -> Result<NodeId, Memory>
    requires zeros { AreZeros store.old labels.now.overlay.zeros.items }
    requires part { IsPart store.old labels.now.rules.now part.now }
    requires decide { AllDecide labels.now.rules.now }
    requires below { AllBelow labels.now.first labels.now.rules.now }
    ensures level { IfOk result (λ id. level_of store.new id.0 ≡ stated) }
    ensures answers { IfOk result (λ id. (values : List ℕ) → IsHeader values →
        answer store.new id.0 values ≡ labelled labels.now.first labels.now.left_open.now 0 labels.now.rules.now values) }
    ensures grows { Grows store.old store.new }
{
    let id = halved(alloc, labels, store, 0, labels.rules, part)?;
    Ok(id)
}

/// The same of some of the rules, which begin at the place. Where none of them is open, that is their diagram
/// by decisions.
fn halved(
    alloc: Global,
    labels: &Labels,
    store: &mut Store,
    from: usize,
    rules: &[Rule],
    part: &ListPart,
) -> Result<NodeId, Memory>
    requires zeros { AreZeros store.old labels.now.overlay.zeros.items }
    requires part { IsPart store.old rules.now part.now }
    requires within { from + length rules.now ≤ length labels.now.rules.now }
    requires stand { StandAt labels.now.rules.now from rules.now }
    requires decide { AllDecide rules.now }
    requires below { AllBelow labels.now.first rules.now }
    ensures level { IfOk result (λ id. level_of store.new id.0 ≡ stated) }
    ensures answers { IfOk result (λ id. (values : List ℕ) → IsHeader values →
        answer store.new id.0 values ≡ labelled labels.now.first labels.now.left_open.now from rules.now values) }
    ensures grows { Grows store.old store.new }
{
    match part {
        ListPart::Alone(shown) => at_most_one(alloc, labels, store, from, rules, *shown),
        ListPart::Halves(shown, first, second) => {
            if !labels.has_open(from, rules.len()) {
                return Ok(*shown);
            }
            let (front, back) = rules.split_at(rules.len() / 2);
            let upper = halved(alloc, labels, store, from, front, first)?;
            let lower = halved(alloc, labels, store, from + front.len(), back, second)?;
            let id = labels.lay(alloc, store, upper, lower)?;
            Ok(id)
        }
    }
}

/// The same of at most one rule.
fn at_most_one(
    alloc: Global,
    labels: &Labels,
    store: &mut Store,
    from: usize,
    rules: &[Rule],
    shown: NodeId,
) -> Result<NodeId, Memory>
    requires shown { Shows store.old rules.now shown }
    requires one { length rules.now ≤ 1 }
    requires within { from + length rules.now ≤ length labels.now.rules.now }
    ensures level { IfOk result (λ id. level_of store.new id.0 ≡ stated) }
    ensures answers { IfOk result (λ id. (values : List ℕ) → IsHeader values →
        answer store.new id.0 values ≡ labelled labels.now.first labels.now.left_open.now from rules.now values) }
    ensures grows { Grows store.old store.new }
{
    match rules {
        [rule] => {
            if !labels.left_open[from] {
                return Ok(shown);
            }
            open_rule(alloc, labels, store, from, rule)
        }
        _ => Ok(shown),
    }
}

/// The diagram of an open rule, which stands at the place.
fn open_rule(
    alloc: Global,
    labels: &Labels,
    store: &mut Store,
    place: usize,
    rule: &Rule,
) -> Result<NodeId, Memory>
    requires within { place < length labels.now.rules.now }
    requires opens { is_open labels.now.left_open.now place ≡ true }
    ensures level { IfOk result (λ id. level_of store.new id.0 ≡ stated) }
    ensures answers { IfOk result (λ id. (values : List ℕ) → IsHeader values →
        answer store.new id.0 values ≡ labelled labels.now.first labels.now.left_open.now place (rule.now ∷ []) values) }
    ensures grows { Grows store.old store.new }
{
    let label = Label {
        place: place as u32,
        next: Next::Nothing,
    };
    let marked = Rule {
        source: rule.source,
        destination: rule.destination,
        ports: rule.ports,
        protocol: rule.protocol,
        decision: label.number(labels.first),
    };
    let id = build(alloc, store, &stated_order(), from_ref(&marked))?;
    Ok(id)
}
