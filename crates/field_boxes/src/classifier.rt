//! The first rule of a list that matches a header.
ghost use Rattle.std.specs.Prelude.{◌≡◌};
ghost use Rattle.field_boxes.specs.Rules.{first_match};

use crate::header::Header;
use crate::rule::Rule;

/// The place of the first rule that holds the header; none exactly where no rule does.
pub fn first(rules: &[Rule], header: &Header) -> Option<usize>
    ensures { result ≡ first_match header.now.values rules.now }
{
    rules.iter().position(|rule| rule.holds(header))
}
