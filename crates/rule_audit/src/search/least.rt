//! A search for the least header at which a rule is needed, or the first that matches, and the state that it tells.
//!
//! It goes through the values of the fields in rising order, interval by interval on which each of the diagrams around
//! the rule leads one way. An interval that the rule doesn't match is passed over, and so is one on which a diagram
//! before the rule answers something everywhere. After so many intervals the search gives up.
ghost use Rattle.std.specs.Prelude.{[]};
ghost use Rattle.rule_audit.specs.Search.{AreAround, IsFound};

use crate::headers::with_value;
use crate::search::around::{Around, is_wanted};
use crate::state::RuleState;
use field_boxes::{Header, greatest};
use node_store::{NodeId, Store};
use razor_limits::Memory;
use std::alloc::Global;

/// What a search comes to.
#[derive(Clone, Copy)]
pub(crate) enum Found {
    At(Header),
    Nowhere,
    GaveUp,
}

impl Found {
    ghost use Rattle.std.specs.Prelude.{◌≡◌};
    ghost use Rattle.rule_audit.specs.Search.{is_nowhere};

    /// Whether the search went through all values in vain.
    fn is_nowhere(self) -> bool
        ensures { result ≡ is_nowhere self }
    {
        match self {
            Found::At(_) => false,
            Found::Nowhere => true,
            Found::GaveUp => false,
        }
    }
}

/// What a search knows of the nodes of a store: which answer 0 for all values, and which something for all values.
#[derive(Drop)]
pub(crate) struct ShortSearch {
    pub alloc: Global,
    pub nothing: Vec<bool>,
    pub full: Vec<bool>,
}

impl ShortSearch {
    ghost use Rattle.std.specs.Prelude.{◌≡◌, ◌≤◌, ◌<◌, true, false, length, drop, IfOk, slice_index_or};
    ghost use Rattle.std.specs.Bool.{OnTrue};
    ghost use Rattle.field_boxes.specs.Headline.Fields.{stated};
    ghost use Rattle.rule_audit.specs.Search.{AreAround, IsFound};
    ghost use Rattle.rule_audit.specs.Marks.{AreMarks, AreWithin, HasMarked};

    /// Whether the node answers 0 for all values.
    pub fn is_nothing(&self, id: NodeId) -> bool
        requires { id.0 < length self.now.nothing.items }
        ensures { result ≡ slice_index_or self.now.nothing.items id.0 false }
    {
        self.nothing[id.0 as usize]
    }

    /// Whether the node answers something for all values.
    fn is_full(&self, id: NodeId) -> bool
        requires { id.0 < length self.now.full.items }
        ensures { result ≡ slice_index_or self.now.full.items id.0 false }
    {
        self.full[id.0 as usize]
    }

    /// Whether one of the nodes answers something for all values.
    fn hide(&self, ids: &[NodeId]) -> bool
        requires { AreWithin self.now.full.items ids.now }
        ensures { OnTrue result (HasMarked self.now.full.items ids.now) }
    {
        for id in ids {
            if self.is_full(*id) {
                return true;
            }
        }
        false
    }

    /// The least header that goes on from the first `depth` values of this one at which the rule is the first that
    /// matches, and those behind it don't decide as it does.
    #[cycle(seeking)]
    pub fn least(
        &self,
        store: &Store,
        depth: usize,
        around: &Around,
        header: Header,
        left: &mut u32,
    ) -> Result<Found, Memory>
        requires depth { depth ≤ 5 }
        requires around { AreAround store.now (drop depth stated) around.now }
        requires nothing { AreMarks store.now true self.now.nothing.items }
        requires full { AreMarks store.now false self.now.full.items }
        ensures { IfOk result (λ found. IsFound store.now depth around.now header.values found) }
    {
        if self.is_nothing(around.here) {
            return Ok(Found::Nowhere);
        }
        if *left == 0 {
            return Ok(Found::GaveUp);
        }
        *left -= 1;
        if self.hide(around.before.as_slice()) {
            return Ok(Found::Nowhere);
        }
        if depth == 5 {
            return Ok(at_leaves(store, around, header));
        }
        self.each_value(store, depth, around, header, left)
    }

    /// The same over the values of a field.
    #[cycle(seeking)]
    fn each_value(
        &self,
        store: &Store,
        depth: usize,
        around: &Around,
        header: Header,
        left: &mut u32,
    ) -> Result<Found, Memory>
        requires depth { depth < 5 }
        requires around { AreAround store.now (drop depth stated) around.now }
        requires nothing { AreMarks store.now true self.now.nothing.items }
        requires full { AreMarks store.now false self.now.full.items }
        ensures { IfOk result (λ found. IsFound store.now depth around.now header.values found) }
    {
        let top = u64::from(greatest(depth));
        let mut lo: u64 = 0;
        while lo <= top {
            let value = lo as u32;
            let step = self.step(store, depth, around, value)?;
            let begun = with_value(header, depth, value);
            let found = self.least(store, depth + 1, &step.around, begun, left)?;
            if !found.is_nowhere() {
                return Ok(found);
            }
            lo = u64::from(step.hi) + 1;
        }
        Ok(Found::Nowhere)
    }
}

/// The header, if it is wanted at the leaves to which its values lead.
fn at_leaves(store: &Store, around: &Around, header: Header) -> Found
    requires { AreAround store.now [] around.now }
    ensures { IsFound store.now 5 around.now header.values result }
{
    if is_wanted(store, around) {
        Found::At(header)
    } else {
        Found::Nowhere
    }
}

/// The most intervals that the searches for the state of a rule go through.
const MOST: u32 = 1000;

impl ShortSearch {
    ghost use Rattle.std.specs.Prelude.{true, false, IfOk, IfSome};
    ghost use Rattle.field_boxes.specs.Headline.Fields.{stated, IsHeader};
    ghost use Rattle.rule_audit.specs.Search.{AreAround, shown_around, NoneIsWanted};
    ghost use Rattle.rule_audit.specs.Marks.{AreMarks};
    ghost use Rattle.rule_audit.specs.Meeting.{IsStateSoFar};

    /// The state of the rule amid these diagrams; none where the search gives up.
    pub fn state(&self, store: &Store, around: &Around) -> Result<Option<RuleState>, Memory>
        requires around { AreAround store.now stated around.now }
        requires nothing { AreMarks store.now true self.now.nothing.items }
        requires full { AreMarks store.now false self.now.full.items }
        ensures { IfOk result (λ told. IfSome told (λ state. IsStateSoFar IsHeader (shown_around store.now around.now) state)) }
    {
        let mut left = MOST;
        let found = self.least(store, 0, around, Header { values: [0; 5] }, &mut left)?;
        match found {
            Found::At(header) => Ok(Some(RuleState::Live { header })),
            Found::Nowhere => self.unneeded(store, around, left),
            Found::GaveUp => Ok(None),
        }
    }

    /// The same of a rule that isn't needed: whether it is the first that matches some header.
    fn unneeded(
        &self,
        store: &Store,
        around: &Around,
        left: u32,
    ) -> Result<Option<RuleState>, Memory>
        requires around { AreAround store.now stated around.now }
        requires nothing { AreMarks store.now true self.now.nothing.items }
        requires full { AreMarks store.now false self.now.full.items }
        requires unneeded { NoneIsWanted store.now stated around.now }
        ensures { IfOk result (λ told. IfSome told (λ state. IsStateSoFar IsHeader (shown_around store.now around.now) state)) }
    {
        let mut left = left;
        let alone = around.without_behind(self.alloc)?;
        let found = self.least(store, 0, &alone, Header { values: [0; 5] }, &mut left)?;
        match found {
            Found::At(header) => Ok(Some(RuleState::Droppable { header })),
            Found::Nowhere => Ok(Some(RuleState::Never)),
            Found::GaveUp => Ok(None),
        }
    }
}
