//! Filter lists as texts: read into rules with names, and written back.
//!
//! ```text
//! let list = read_list(alloc, b"@0.0.0.0/0 0.0.0.0/0 0 : 65535 80 : 80 0x06/0xFF web\n")?;
//! write_list(&list, &mut out)?;
//! ```
//!
//! What is promised:
//!
//! - [`read_list`] gives exactly the list that a text spells in the ClassBench form, its names numbered as they are
//!   first seen, or exactly the first bad line and the first of its fifteen reasons, or says that it ran out of memory.
//! - [`write_list`] writes exactly the text of its list, or after a failed write a front of it; that text spells the
//!   same sets and names, with no flags.
//! - [`laws`]: two lists with the same rules, by names, whose names are numbered as they are first seen, have the same
//!   numbers. [`rows`] has a bad line for each reason, skipped lines and unions of ranges, worked from the definitions.
//!
//! `specs/Headline/FilterList.antt` says what a text spells, and `specs/Headline/RuleLine.antt` what a line does.
//!
//! | Module | Holds |
//! |---|---|
//! | `reading`, `take`, `reason` | a list read whole, and why one is refused |
//! | `line`, `token` | the rule of a line, token by token |
//! | `address`, `port`, `range`, `ranges`, `protocol`, `flags`, `hexadecimal`, `decision` | the columns of a line |
//! | `write`, `rule_text`, `port_text`, `protocol_text` | a list written back |
//! | `laws`, `rows` | laws and worked rows of the definitions |
#![tactic(auto)]

mod address;
mod decision;
mod flags;
mod hexadecimal;
pub mod laws;
mod line;
mod port;
mod port_text;
mod protocol;
mod protocol_text;
mod range;
mod ranges;
mod reading;
mod reason;
pub mod rows;
mod rule_text;
mod take;
mod token;
mod write;

pub use field_boxes::RuleList;
pub use line::{LineRule, rule_of_line};
pub use reading::read_list;
pub use reason::{ListError, Reason};
pub use write::write_list;
