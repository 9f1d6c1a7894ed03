//! Orders of the five fields.
ghost use Rattle.std.specs.Prelude.{◌≡◌, nat_eq};
ghost use Rattle.std.specs.List.{list_any};
ghost use Rattle.field_boxes.specs.Orders.{are_distinct, are_fields, is_order};

use std::marker::Model;

/// An order of the five fields, each of them once.
#[derive(Clone, Copy, Debug, PartialEq, Eq)]
pub struct Order {
    fields: [u8; 5],
}

impl Model for Order {
    ghost use Rattle.std.specs.Prelude.{ℕ, List};
    ghost use Rattle.field_boxes.specs.Orders.{IsOrder};

    ghost Value = { List ℕ };

    ghost view = { λ order. order.fields };

    ghost invariant = { λ order. IsOrder order.fields };

    ghost inverse = { λ fields. record { fields = fields } };
}

impl Order {
    ghost use Rattle.std.specs.Prelude.{◌≡◌, ◌↔◌, Some, None, IsSome, IfSome, if◌then◌else◌};
    ghost use Rattle.field_boxes.specs.Headline.Fields.{stated};
    ghost use Rattle.field_boxes.specs.Orders.{AreDistinct, IsOrder, is_order};

    /// The order of these fields; none where they aren't the numbers 0 to 4, each once.
    #[tactic(auto, using(crate::proofs::Orders::passed, crate::proofs::Orders::failed))]
    pub fn new(fields: [u8; 5]) -> Option<Order>
        ensures fields { IfSome result (λ order. order ≡ fields) }
        ensures some { IsSome result ↔ IsOrder fields }
        ensures tested { result ≡ if is_order fields then Some fields else None }
    {
        if !is_order(&fields) {
            return None;
        }
        Some(Order { fields })
    }

    /// The stated order: 0, 1, 2, 3, 4.
    pub fn stated() -> Order
        ensures fields { result ≡ stated }
        ensures order { IsOrder result }
    {
        Order {
            fields: [0, 1, 2, 3, 4],
        }
    }

    /// The fields as digits.
    pub fn digits(&self) -> [u8; 5]
        ensures { result ≡ self.now }
    {
        self.fields
    }

    /// The fields, the one that is read first in front.
    pub fn fields(&self) -> &[u8]
        ensures fields { result.now ≡ self.now }
        ensures order { IsOrder result.now }
        ensures distinct { AreDistinct result.now }
    {
        &self.fields
    }
}

/// Whether the five numbers are those of the fields, each once.
fn is_order(fields: &[u8]) -> bool
    ensures { result ≡ is_order fields.now }
{
    are_fields(fields) && are_distinct(fields)
}

/// Whether each of the numbers is one of a field.
fn are_fields(fields: &[u8]) -> bool
    ensures { result ≡ are_fields fields.now }
{
    fields.iter().all(|field| *field < 5)
}

/// Whether no field stands twice.
fn are_distinct(fields: &[u8]) -> bool
    ensures { result ≡ are_distinct fields.now }
{
    match fields {
        [] => true,
        [first, rest @ ..] => !has(rest, *first) && are_distinct(rest),
    }
}

/// Whether the field is among these.
fn has(fields: &[u8], field: u8) -> bool
    ensures { result ≡ list_any (nat_eq field) fields.now }
{
    fields.iter().any(|other| field == *other)
}
