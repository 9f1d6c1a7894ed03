//! The comparison of two lists, or of a list and other rules.
ghost use Rattle.std.specs.Prelude.{IfOk};
ghost use Rattle.list_equiv.specs.Names.{AreWithin, name_of};
ghost use Rattle.list_equiv.specs.Verdict.{IsListVerdict, IsVerdict};

use crate::apart::first_apart;
use crate::decision::decision;
use field_boxes::{Decisions, Header, Rule, RuleList};
use razor_limits::Memory;
use std::alloc::Global;

/// What the comparison of two sides comes to.
#[derive(Clone, Copy, Debug, PartialEq, Eq)]
pub enum Verdict {
    /// Both decide every header alike.
    Equal,
    /// The least header that they decide differently, and the number of each one's decision among its
    /// own names, 0 for none.
    Differ {
        header: Header,
        left: u32,
        right: u32,
    },
}

/// Whether the two lists decide every header alike, by the names of their decisions.
///
/// Headers are ordered by the stated order of the fields, the source address first. The cost is that of
/// building the two diagrams; once both stand, they are compared by their numbers.
pub fn equal(alloc: Global, left: &RuleList, right: &RuleList) -> Result<Verdict, Memory>
    ensures { IfOk result (λ verdict. IsListVerdict left.now right.now verdict) }
{
    let verdict = compare(alloc, &left.rules, &left.names, &right.rules, &right.names)?;
    Ok(verdict)
}

/// The same for rules that decide numbers of these names, 0 for none.
pub fn compare(
    alloc: Global,
    left: &[Rule],
    left_names: &Decisions,
    right: &[Rule],
    right_names: &Decisions,
) -> Result<Verdict, Memory>
    requires left { AreWithin left_names.now left.now }
    requires right { AreWithin right_names.now right.now }
    ensures { IfOk result (λ verdict.
        IsVerdict left_names.now right_names.now (name_of left_names.now left.now) (name_of right_names.now right.now) verdict) }
{
    match first_apart(alloc, left, left_names, right, right_names)? {
        None => Ok(Verdict::Equal),
        Some(header) => Ok(Verdict::Differ {
            header,
            left: decision(left, &header),
            right: decision(right, &header),
        }),
    }
}
