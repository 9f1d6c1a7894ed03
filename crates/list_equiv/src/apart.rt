//! The first header on which rules of two sides decide different names.
ghost use Rattle.std.specs.Prelude.{IfOk, MatchOption};
ghost use Rattle.field_boxes.specs.Alike.{AreAlike, IsFirstDifference};
ghost use Rattle.list_equiv.specs.Names.{AreWithin, name_of};

use crate::renumbering::common_rules;
use fdd_build::build;
use fdd_ops::least_difference;
use field_boxes::{Decisions, Header, Rule};
use node_store::{Store, stated_order};
use razor_limits::Memory;
use std::alloc::Global;

/// The first header on which the rules decide different names, none where they decide all headers alike.
///
/// Both sides get common numbers, and the diagram of each is built in one store, where one function has
/// one node.
pub(crate) fn first_apart(
    alloc: Global,
    left: &[Rule],
    left_names: &Decisions,
    right: &[Rule],
    right_names: &Decisions,
) -> Result<Option<Header>, Memory>
    requires left { AreWithin left_names.now left.now }
    requires right { AreWithin right_names.now right.now }
    ensures { IfOk result (λ found. MatchOption found
        (AreAlike (name_of left_names.now left.now) (name_of right_names.now right.now))
        (λ header. IsFirstDifference (name_of left_names.now left.now) (name_of right_names.now right.now) header.values)) }
{
    left_names.are_names();
    right_names.are_names();
    let left_rules = common_rules(alloc, left, left_names, right_names)?;
    let right_rules = common_rules(alloc, right, right_names, right_names)?;
    let mut store = Store::new(alloc);
    let left_node = build(alloc, &mut store, &stated_order(), &left_rules)?;
    let right_node = build(alloc, &mut store, &stated_order(), &right_rules)?;
    Ok(least_difference(&store, left_node, right_node))
}
