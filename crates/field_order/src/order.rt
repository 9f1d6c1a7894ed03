//! The usual order, orders by their places, and their fields as a level.
ghost use Rattle.std.specs.Prelude.{◌≡◌, ◌<◌, ◌≤◌, ◌^◌, ℕ, List, Some, All, IfSome};
ghost use Rattle.field_boxes.specs.Orders.{AreDistinct, Has, IsOrder};
ghost use Rattle.node_store.specs.Levels.{IsLevel};
ghost use Rattle.field_order.specs.Order.{place_of};
ghost use Rattle.field_order.specs.Fronts.{without};
ghost use Rattle.field_order.specs.Search.{usual};
ghost use Rattle.field_order.specs.Worth.{digits};

use field_boxes::Order;

/// The order in which most lists cost little: 4, 1, 0, 3, 2.
pub(crate) fn usual() -> Order
    ensures fields { result ≡ usual }
    ensures order { IsOrder result }
{
    match Order::new([4, 1, 0, 3, 2]) {
        Some(order) => order,
        None => unreachable!(),
    }
}

/// The order at a place among all lists of five fields, in rising order of digits; none where a field
/// stands there twice.
pub(crate) fn order_at(place: u32) -> Option<Order>
    requires { place < 3125 }
    ensures place { IfSome result (λ order. IsOrder order × (place_of order ≡ place)) }
    ensures found { (fields : List ℕ) → IsOrder fields → place_of fields ≡ place → result ≡ Some fields }
{
    Order::new([
        (place / 625 % 5) as u8,
        (place / 125 % 5) as u8,
        (place / 25 % 5) as u8,
        (place / 5 % 5) as u8,
        (place % 5) as u8,
    ])
}

/// The fields, the one that is read first in front.
pub(crate) fn as_level(order: &Order) -> &[u8]
    ensures fields { result.now ≡ order.now }
    ensures order { IsOrder result.now }
    ensures level { IsLevel result.now }
    ensures distinct { AreDistinct result.now }
{
    order.fields()
}

/// The digits of an order to the base 5, so many of them, without that of the field.
pub(crate) fn order_without(order: u32, count: usize, field: u8) -> u32
    requires count { count ≤ 5 }
    requires fields { All (λ f. f < 5) (digits count order) }
    requires apart { AreDistinct (digits count order) }
    requires has { Has field (digits count order) }
    ensures { result ≡ place_of (without field (digits count order)) }
{
    let unit = unit(count - 1);
    let first = order / unit;
    let rest = order % unit;
    if first == u32::from(field) {
        return rest;
    }
    first * (unit / 5) + order_without(rest, count - 1, field)
}

/// The power of 5.
pub(crate) fn unit(count: usize) -> u32
    requires { count < 5 }
    ensures value { result ≡ 5 ^ count }
    ensures some { 0 < result }
{
    match count {
        0 => 1,
        1 => 5,
        2 => 25,
        3 => 125,
        _ => 625,
    }
}
