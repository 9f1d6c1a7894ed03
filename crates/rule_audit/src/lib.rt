//! The states of the rules of a list: which are needed, which are redundant, which are shadowed.
//!
//! A rule is live (needed) if leaving it out alone changes what the list decides of some header. It is never first
//! (shadowed, or upward redundant) if no header has it as its first matching rule. Else it is droppable (downward
//! redundant): some headers match it first, and the rules behind it decide them alike. [`audit`] gives the state of
//! each rule, with the least header that shows it.
//!
//! ```text
//! for (place, state) in audit(alloc, &list)?.iter().enumerate() {
//!     match state {
//!         RuleState::Live { header } => { /* without the rule this header is decided otherwise */ }
//!         RuleState::Droppable { header } => { /* it decides this header, as the next rule would */ }
//!         RuleState::Never => { /* earlier rules hide it */ }
//!     }
//! }
//! ```
//!
//! What is promised:
//!
//! - [`audit`] gives as many states as rules, and each is that of its rule in the list as it stands.
//! - Of a live rule the header is the least one whose decision, by name or none, changes when the rule is left out alone.
//! - Leaving a droppable rule out alone changes nothing, and the header is the least one that has it as its first
//!   matching rule.
//! - A rule is never first exactly where no header has it as its first.
//!
//! `specs/State.antt` says it; it stands on rules and headers.
//!
//! The diagrams of the list and of its halves are built first. A short search over them finds the states of most rules,
//! and gives up on some. For these open rules one more diagram is made, by the same halves, whose leaves say which open
//! rule is the first that matches and how the next one that matches decides: a label. Elsewhere its leaves say what is
//! decided, so a part of the list without open rules is shown by the diagram that stands. Then one walk in rising order
//! goes through each node once, at the least header that leads to it, and meets each label at its least header.
//!
//! | Module | Holds |
//! |---|---|
//! | `auditing`, `state` | the call, and the state of a rule |
//! | `list_parts`, `overlay` | the diagrams of the parts of a list, and one diagram laid over another |
//! | `search` | the short search through the rules of a list |
//! | `search::least`, `search::around`, `search::branch`, `search::marks` | that for one rule: the diagrams around it, where a field's values lead, and nodes that answer alike everywhere |
//! | `label`, `label_diagram` | labels of the open rules, and the diagram whose leaves hold them |
//! | `label_walk`, `headers` | the walk that meets each label at its least header |
#![tactic(auto)]

mod auditing;
mod headers;
mod label;
mod label_diagram;
mod label_walk;
mod list_parts;
mod overlay;
mod search;
mod state;

pub use auditing::audit;
pub use state::RuleState;
