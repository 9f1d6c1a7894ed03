//! The state of a rule.
ghost use Rattle.std.specs.Prelude.{◌≡◌, ◌<◌, ℕ, length, slice_index_or};
ghost use Rattle.rule_audit.specs.declared.state.RuleState.{RuleState};
ghost use Rattle.rule_audit.specs.Meeting.{next_shown, state_after};

use crate::label::{Label, Next};
use field_boxes::Header;

/// What a rule does in its list.
#[derive(Clone, Copy, Debug, PartialEq, Eq)]
pub enum RuleState {
    /// Left out alone, it changes what the list decides: of this header, and of none before it.
    Live { header: Header },
    /// It is the first that matches this header, and none before it, but leaving it out alone changes
    /// nothing.
    Droppable { header: Header },
    /// No header has it as its first matching rule.
    Never,
}

impl RuleState {
    ghost use Rattle.std.specs.Prelude.{◌≡◌};
    ghost use Rattle.rule_audit.specs.Meeting.{state_with};

    /// The state once a header after all earlier ones shows how the next rule decides.
    pub(crate) fn with(self, next: Next, header: Header) -> RuleState
        ensures { result ≡ state_with self next header }
    {
        match (self, next) {
            (RuleState::Live { .. }, _) => self,
            (RuleState::Droppable { .. }, Next::Alike) => self,
            (RuleState::Never, Next::Alike) => RuleState::Droppable { header },
            _ => RuleState::Live { header },
        }
    }
}

/// The states once a header after all earlier ones has this label.
pub(crate) fn meet(states: &mut [RuleState], label: Option<Label>, header: Header)
    ensures { (k : ℕ) (d : RuleState) → k < length states.old →
        slice_index_or states.new k d ≡ state_after (next_shown k label) header (slice_index_or states.old k d) }
{
    let Some(label) = label else {
        return;
    };
    let place = label.place as usize;
    if place < states.len() {
        states[place] = states[place].with(label.next, header);
    }
}
