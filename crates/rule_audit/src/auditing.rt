//! The states of the rules of a list.
ghost use Rattle.std.specs.Prelude.{◌≡◌, ◌≤◌, ◌<◌, ◌+◌, ◌*◌, ℕ, true, None, IfOk, length, vec_len, slice_index_or, map, is_none, unwrap_or};
ghost use Rattle.razor_limits.specs.declared.limits.TheConstants.{MOST_RULES};
ghost use Rattle.field_boxes.specs.Headline.Fields.{stated, IsHeader};
ghost use Rattle.node_store.specs.Diagram.{level_of};
ghost use Rattle.field_boxes.specs.NamedRules.{named_rules};
ghost use Rattle.rule_audit.specs.declared.state.RuleState.{RuleState};
ghost use Rattle.rule_audit.specs.declared.state.RuleState.TheVariants.{Never};
ghost use Rattle.rule_audit.specs.Labels.{AllBelow, AllDecide, is_open};
ghost use Rattle.rule_audit.specs.Meeting.{next_behind, shown_by, IsStateSoFar};
ghost use Rattle.rule_audit.specs.Parts.{IsPart};
ghost use Rattle.rule_audit.specs.State.{AreStates};

use crate::label_diagram::{Labels, diagram};
use crate::label_walk::LabelWalk;
use crate::list_parts::ListPart;
use crate::overlay::Overlay;
use crate::search::searched;
use crate::state::RuleState;
use field_boxes::{Rule, RuleList};
use node_store::{NodeId, Store};
use razor_limits::Memory;
use std::alloc::Global;

/// The state of each rule, in their order.
///
/// What a list decides is meant by name. The time goes by the nodes of the diagrams that are built, and
/// the memory too; there are few more than the list's own diagrams have, but for rules that a short search
/// leaves open.
pub fn audit(alloc: Global, list: &RuleList) -> Result<Vec<RuleState>, Memory>
    ensures { IfOk result (λ states. AreStates (named_rules list.now.names list.now.rules.items) states.items) }
{
    list.names.are_names();
    let first = list.names.count() + 1;
    let states = told(alloc, &list.rules, first)?;
    Ok(states)
}

/// The states of rules that decide numbers below the first label's.
fn told(alloc: Global, rules: &[Rule], first: u32) -> Result<Vec<RuleState>, Memory>
    requires few { length rules.now ≤ MOST_RULES }
    requires room { first ≤ 262145 }
    requires some { 0 < first }
    requires decide { AllDecide rules.now }
    requires below { AllBelow first rules.now }
    ensures count { IfOk result (λ states. vec_len states ≡ length rules.now) }
    ensures each { IfOk result (λ states. (k : ℕ) (d : RuleState) → k < length rules.now →
        IsStateSoFar IsHeader (next_behind rules.now k) (slice_index_or states.items k d)) }
{
    let mut store = Store::new(alloc);
    let part = ListPart::of(alloc, &mut store, rules)?;
    let known = searched(alloc, &store, rules, &part)?;
    let left_open = unknown(alloc, &known)?;
    let found = by_labels(alloc, &mut store, rules, &left_open, first, &part)?;
    let states = filled(alloc, &known, &found)?;
    Ok(states)
}

/// Which states aren't known.
fn unknown(alloc: Global, known: &[Option<RuleState>]) -> Result<Vec<bool>, Memory>
    ensures { IfOk result (λ marks. marks.items ≡ map is_none known.now) }
{
    let mut marks = Vec::new(alloc);
    for state in known {
        marks.push(state.is_none())?;
    }
    Ok(marks)
}

/// The states that are known, and those found where one isn't.
fn filled(
    alloc: Global,
    known: &[Option<RuleState>],
    found: &[RuleState],
) -> Result<Vec<RuleState>, Memory>
    requires { length found.now ≡ length known.now }
    ensures count { IfOk result (λ states. vec_len states ≡ length known.now) }
    ensures each { IfOk result (λ states. (k : ℕ) → k < length known.now →
        slice_index_or states.items k Never ≡ unwrap_or (slice_index_or known.now k None) (slice_index_or found.now k Never)) }
{
    let mut states = Vec::new(alloc);
    for place in 0..known.len() {
        states.push(known[place].unwrap_or(found[place]))?;
    }
    Ok(states)
}

/// States for all rules, which are those of the open ones, as the labels of all headers tell them.
fn by_labels(
    alloc: Global,
    store: &mut Store,
    rules: &[Rule],
    left_open: &[bool],
    first: u32,
    part: &ListPart,
) -> Result<Vec<RuleState>, Memory>
    requires long { length left_open.now ≡ length rules.now }
    requires room { first + 3 * length rules.now ≤ 4294967296 }
    requires some { 0 < first }
    requires part { IsPart store.old rules.now part.now }
    requires decide { AllDecide rules.now }
    requires below { AllBelow first rules.now }
    ensures count { IfOk result (λ states. vec_len states ≡ length rules.now) }
    ensures each { IfOk result (λ states. (k : ℕ) (d : RuleState) → k < length rules.now → is_open left_open.now k ≡ true →
        IsStateSoFar IsHeader (next_behind rules.now k) (slice_index_or states.items k d)) }
{
    let overlay = Overlay::of(alloc, store)?;
    let labels = Labels {
        rules,
        left_open,
        first,
        overlay,
    };
    if !labels.has_open(0, rules.len()) {
        let states = vec![in alloc; RuleState::Never; rules.len()]?;
        return Ok(states);
    }
    let root = diagram(alloc, &labels, store, part)?;
    let states = met(alloc, store, root, first, rules.len())?;
    Ok(states)
}

/// The states, as the labels that the diagram answers tell them.
fn met(
    alloc: Global,
    store: &Store,
    root: NodeId,
    first: u32,
    count: usize,
) -> Result<Vec<RuleState>, Memory>
    requires { level_of store.now root.0 ≡ stated }
    ensures count { IfOk result (λ states. vec_len states ≡ count) }
    ensures each { IfOk result (λ states. (k : ℕ) (d : RuleState) → k < count →
        IsStateSoFar IsHeader (shown_by first store.now root.0 k) (slice_index_or states.items k d)) }
{
    let mut seen = vec![in alloc; false; store.count()]?;
    let mut states = vec![in alloc; RuleState::Never; count]?;
    let meeting = LabelWalk { store, root, first };
    meeting.all(&mut seen, &mut states);
    Ok(states)
}
