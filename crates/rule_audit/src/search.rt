//! The states of the rules that a short search tells.
//!
//! The rules before a rule are the first halves of the parts whose second half holds it, and those behind it are the
//! second halves of the parts whose first half does. So a few diagrams say for each header whether a rule before it
//! matches, and what the first rule behind it decides that does.
ghost use Rattle.std.specs.Prelude.{◌≡◌, ◌<◌, ℕ, length, vec_len, Option, IfOk, IfSome, slice_index_or};
ghost use Rattle.field_boxes.specs.Headline.Fields.{IsHeader};
ghost use Rattle.rule_audit.specs.declared.state.RuleState.{RuleState};
ghost use Rattle.rule_audit.specs.Labels.{AllDecide};
ghost use Rattle.rule_audit.specs.Meeting.{IsStateSoFar, next_behind};
ghost use Rattle.rule_audit.specs.Parts.{IsPart};

mod around;
mod branch;
mod least;
mod marks;

use crate::list_parts::ListPart;
use crate::search::around::Around;
use crate::search::least::ShortSearch;
use crate::search::marks::mark_all;
use crate::state::RuleState;
use field_boxes::Rule;
use node_store::Store;
use razor_limits::Memory;
use smallvec::SmallVec;
use std::alloc::Global;

/// The states that a short search tells, in the rules' order; none where it gave up.
pub(crate) fn searched(
    alloc: Global,
    store: &Store,
    rules: &[Rule],
    part: &ListPart,
) -> Result<Vec<Option<RuleState>>, Memory>
    requires part { IsPart store.now rules.now part.now }
    requires decide { AllDecide rules.now }
    ensures count { IfOk result (λ states. vec_len states ≡ length rules.now) }
    ensures each { IfOk result (λ states. (k : ℕ) (d : Option RuleState) → k < length rules.now →
        IfSome (slice_index_or states.items k d) (λ state. IsStateSoFar IsHeader (next_behind rules.now k) state)) }
{
    let nothing = mark_all(alloc, store, true)?;
    let full = mark_all(alloc, store, false)?;
    let search = ShortSearch {
        alloc,
        nothing,
        full,
    };
    let list_search = ListSearch {
        store,
        rules,
        search,
    };
    let around = Around {
        here: part.shown(),
        before: SmallVec::new(alloc),
        behind: SmallVec::new(alloc),
    };
    let mut states = Vec::with_capacity(alloc, rules.len())?;
    list_search.part(rules, part, &around, &mut states)?;
    Ok(states)
}

/// A search through the rules of a list.
#[derive(Drop)]
struct ListSearch<'s, 'r> {
    store: &'s Store,
    rules: &'r [Rule],
    search: ShortSearch,
}

impl<'s, 'r> ListSearch<'s, 'r> {
    ghost use Rattle.std.specs.Prelude.{◌≡◌, ◌≤◌, ◌+◌, true, false, length, OnOk};
    ghost use Rattle.rule_audit.specs.Labels.{AllDecide};
    ghost use Rattle.rule_audit.specs.Marks.{AreMarks};
    ghost use Rattle.rule_audit.specs.Parts.{IsPart};
    ghost use Rattle.rule_audit.specs.Search.{AreTold, StandBetween};

    /// Puts the states of a part's rules behind those of the rules before it.
    fn part(
        &self,
        rules: &[Rule],
        part: &ListPart,
        around: &Around,
        states: &mut Vec<Option<RuleState>>,
    ) -> Result<(), Memory>
        requires part { IsPart self.now.store.now rules.now part.now }
        requires between { StandBetween self.now.store.now self.now.rules.now rules.now (length states.old.items) around.now }
        requires decide { AllDecide self.now.rules.now }
        requires nothing { AreMarks self.now.store.now true self.now.search.nothing.items }
        requires full { AreMarks self.now.store.now false self.now.search.full.items }
        requires told { AreTold self.now.rules.now states.old.items }
        ensures count { OnOk result (length states.new.items ≡ length states.old.items + length rules.now) }
        ensures told { OnOk result (AreTold self.now.rules.now states.new.items) }
    {
        match part {
            ListPart::Alone(_) => self.alone(rules, around, states),
            ListPart::Halves(_, first, second) => {
                let (upper, lower) = rules.split_at(rules.len() / 2);
                let alloc = self.search.alloc;
                let around_first = around.first(alloc, first.shown(), second.shown())?;
                self.part(upper, first, &around_first, states)?;
                let around_second = around.second(alloc, first.shown(), second.shown())?;
                self.part(lower, second, &around_second, states)?;
                Ok(())
            }
        }
    }

    /// Puts the state of the only rule of a part, if it has one.
    fn alone(
        &self,
        rules: &[Rule],
        around: &Around,
        states: &mut Vec<Option<RuleState>>,
    ) -> Result<(), Memory>
        requires few { length rules.now ≤ 1 }
        requires between { StandBetween self.now.store.now self.now.rules.now rules.now (length states.old.items) around.now }
        requires decide { AllDecide self.now.rules.now }
        requires nothing { AreMarks self.now.store.now true self.now.search.nothing.items }
        requires full { AreMarks self.now.store.now false self.now.search.full.items }
        requires told { AreTold self.now.rules.now states.old.items }
        ensures count { OnOk result (length states.new.items ≡ length states.old.items + length rules.now) }
        ensures told { OnOk result (AreTold self.now.rules.now states.new.items) }
    {
        if rules.is_empty() {
            return Ok(());
        }
        let told = self.search.state(self.store, around)?;
        states.push(told)?;
        Ok(())
    }
}
