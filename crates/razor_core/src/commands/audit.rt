//! `audit`: the state of each rule of a list.
ghost use Rattle.std.specs.Prelude.{◌≢◌, ◌≡◌, ℕ, List, [], ◌∷◌};
ghost use Rattle.razor_base.specs.Headline.Outcomes.{Extends};
ghost use Rattle.field_boxes.specs.Lists.{filter_list};
ghost use Rattle.razor_base.specs.Output.{Puts, Writes};
ghost use Rattle.razor_base.specs.Texts.{StaysUnread, left_of};
ghost use Rattle.razor_core.specs.PossibleTexts.{MayBeTexts};
ghost use Rattle.razor_core.specs.Commands.Audit.{found_state, state_line, states_text, AreStated, auditing, IsAudited};
ghost use Rattle.razor_core.specs.Ending.{Ends};
ghost use Rattle.razor_core.specs.OneText.{IsEndOf};
ghost use Rattle.razor_core.specs.Outside.{seen, Adds, Outside};
ghost use Rattle.razor_core.specs.Promise.{KeepsPromise};
ghost use Rattle.razor_core.specs.Calls.{MakesCalls, WritesBehind};
ghost use Rattle.razor_core.specs.Meaning.{at_the_end};

use crate::ending::{Ending, Summary};
use crate::taking::take;
use crate::texts::ListText;
use field_boxes::{Header, RuleList};
use razor_base::{Desk, Failed, Part, Pending, Sink, put_parts};
use rule_audit::{RuleState, audit};
use std::alloc::Global;

/// Writes the state of each rule of the list.
#[inline(never)]
pub(crate) fn audit_list<'a, D: Desk, K: Sink>(
    alloc: Global,
    file: &'a str,
    desk: &mut D,
    out: &mut K,
) -> Ending<'a>
    ensures ends { (texts : List ℕ → List ℕ) → MayBeTexts (D.reads desk.new) texts → Ends (auditing file.now)
        (seen (left_of D.reads texts) D.faults K.written K.faults desk.old out.old)
        (seen (left_of D.reads texts) D.faults K.written K.faults desk.new out.new)
        result }
    ensures others { (other : List ℕ) → other ≢ file.now → StaysUnread (D.reads desk.old) (D.reads desk.new) other }
    ensures calls { MakesCalls at_the_end (file.now ∷ []) (D.reads desk.old) (D.reads desk.new) (K.written out.old) (K.written out.new) result }
{
    let list = match take(alloc, &ListText, file, desk) {
        Ok(list) => list,
        Err(ending) => return ending,
    };
    answer_audit(alloc, &list, out)
}

/// Writes the states, and says how the command ends.
fn answer_audit<'a, K: Sink>(alloc: Global, list: &RuleList, out: &mut K) -> Ending<'a>
    ensures ends { IsEndOf (AreStated (filter_list list.now).rules) (K.written out.old) (K.written out.new) (K.faults out.old) (K.faults out.new) result }
    ensures writes { Extends (K.written out.old) (K.written out.new) (WritesBehind result) }
{
    let states = match audit(alloc, list) {
        Ok(states) => states,
        Err(_) => return Ending::Memory,
    };
    match write_states(&states, out) {
        Ok(()) => Ending::Done(Summary::Nothing),
        Err(_) => Ending::WriteFault,
    }
}

/// Writes a line for each rule.
#[inline(never)]
fn write_states<K: Sink>(states: &[RuleState], out: &mut K) -> Result<(), Failed>
    ensures { Writes K.written K.faults out.old out.new (states_text states.now) result }
{
    let mut pending = Pending::new();
    put_states(states, &mut pending, out)?;
    pending.flush(out)
}

/// Puts a line for each rule.
fn put_states<K: Sink>(
    states: &[RuleState],
    pending: &mut Pending,
    out: &mut K,
) -> Result<(), Failed>
    ensures { Puts K.written K.faults out.old out.new pending.old pending.new (states_text states.now) result }
{
    for (place, state) in states.iter().enumerate() {
        put_state(place as u64 + 1, *state, pending, out)?;
    }
    Ok(())
}

/// Puts the line of the rule with this number.
fn put_state<K: Sink>(
    number: u64,
    state: RuleState,
    pending: &mut Pending,
    out: &mut K,
) -> Result<(), Failed>
    ensures { Puts K.written K.faults out.old out.new pending.old pending.new (state_line number state) result }
{
    match state {
        RuleState::Live { header } => put_found(number, " live ", &header, pending, out),
        RuleState::Droppable { header } => put_found(number, " droppable ", &header, pending, out),
        RuleState::Never => put_parts(
            pending,
            out,
            &[
                Part::Text("rule "),
                Part::Number(u128::from(number)),
                Part::Text(" never\n"),
            ],
        ),
    }
}

/// Puts the line of a rule whose state has a header.
fn put_found<'a, K: Sink>(
    number: u64,
    state: &'a str,
    header: &Header,
    pending: &mut Pending,
    out: &mut K,
) -> Result<(), Failed>
    ensures { Puts K.written K.faults out.old out.new pending.old pending.new (found_state number state.now header.now.values) result }
{
    let [source, destination, source_port, destination_port, protocol] = header.values;
    put_parts(
        pending,
        out,
        &[
            Part::Text("rule "),
            Part::Number(u128::from(number)),
            Part::Text(state),
            Part::Number(u128::from(source)),
            Part::Text(" "),
            Part::Number(u128::from(destination)),
            Part::Text(" "),
            Part::Number(u128::from(source_port)),
            Part::Text(" "),
            Part::Number(u128::from(destination_port)),
            Part::Text(" "),
            Part::Number(u128::from(protocol)),
            Part::Text("\n"),
        ],
    )
}

/// What `audit` has written is the state of each rule.
pub fn states_are_those_of_the_rules()
    ensures { (before after : Outside) (line : List ℕ) (file text : List ℕ) →
        KeepsPromise (auditing file) before after line 0 → before.remaining file ≡ text →
        Adds before after (IsAudited text) }
{}
