//! Headers, intervals, sets of ports, prefixes, rules, lists of rules and the names of decisions.
//!
//! A classifier is a list of rules, each with a set of values for each of five fields and a decision: an interval for
//! an address and for the protocol, a union of intervals for a port. A header gets the decision of the first rule whose
//! five sets hold its five values.
//!
//! What is promised:
//!
//! - [`first`] gives the place of the first rule that matches the header, and none exactly where none does.
//! - [`Rule::covers`] says yes exactly where every header of a box matches the rule, and [`Rule::meets`] exactly where
//!   some header of the box does.
//! - [`Ports::of`] gives the union of the spans, and none exactly where there is no span, there are more than sixteen,
//!   or one reaches past the last port.
//! - [`Decisions`] numbers names as they are first seen: a number keeps its name, and a name its number.
//! - [`Span`], [`Header`], [`Prefix`], [`Order`] and [`decision_word`] answer exactly by their definitions.
//! - [`laws`]: two lists of spans that hold the same ports and rise apart are the same list; the first match over a
//!   field and more fields is that of the list's restriction to the field's value over the others; a prefix is an
//!   interval, and a front of the bits; the order of headers is total.
//!
//! `specs/Headline/Classifier.antt` says what the first match means over any list of fields; a restriction is called `residue`
//! there.
//!
//! | Module | Holds |
//! |---|---|
//! | `classifier`, `rule`, `rule_list`, `boxes` | lists of rules, rules, and rules against boxes |
//! | `header`, `fields`, `field_order` | headers, the five fields, and orders of them |
//! | `span`, `span_list`, `uniting`, `ports`, `prefix` | sets of values of one field |
//! | `decisions`, `names` | names of decisions and their numbers |
//! | `laws` | laws of the definitions |
#![tactic(auto)]

mod boxes;
mod classifier;
mod decisions;
mod field_order;
mod fields;
mod header;
pub mod laws;
mod names;
mod ports;
mod prefix;
mod rule;
mod rule_list;
mod span;
mod span_list;
mod uniting;

pub use classifier::first;
pub use decisions::Decisions;
pub use field_order::Order;
pub use fields::{greatest, width};
pub use header::Header;
pub use names::decision_word;
pub use ports::Ports;
pub use prefix::Prefix;
pub use rule::Rule;
pub use rule_list::RuleList;
pub use span::Span;
