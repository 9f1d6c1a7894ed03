//! The order of the fields that is wanted.
ghost use Rattle.std.specs.Prelude.{◌≡◌, ◌-◌, unwrap_or};
ghost use Rattle.std.specs.List.{list_all};
ghost use Rattle.std.specs.Char.{is_ascii_digit};
ghost use Rattle.std.specs.Option.{option_map};
ghost use Rattle.command_words.specs.Orders.{Best, order_wanted, order_written};
ghost use Rattle.command_words.specs.Settings.{wanted_seen};

use field_boxes::Order;

/// The order in which a table is composed.
#[derive(Clone, Copy, Debug, PartialEq, Eq)]
pub enum Wanted {
    /// The order that costs least.
    Best,
    /// This order.
    In(Order),
}

/// The order, the one that costs least where none is given.
pub(crate) fn or_best(order: Option<Wanted>) -> Wanted
    ensures { wanted_seen result ≡ unwrap_or (option_map wanted_seen order) Best }
{
    match order {
        Some(wanted) => wanted,
        None => Wanted::Best,
    }
}

/// Whether the word has digits alone.
fn all_digits(word: &[u8]) -> bool
    ensures { result ≡ list_all is_ascii_digit word.now }
{
    word.iter().all(|byte| byte.is_ascii_digit())
}

/// The number of a digit.
fn digit(byte: u8) -> u8
    ensures { result ≡ byte - 48 }
{
    byte.saturating_sub(48)
}

/// The order that the word of its digits writes.
fn order_written(word: &[u8]) -> Option<Order>
    ensures { result ≡ order_written word.now }
{
    let &[first, second, third, fourth, fifth] = word else {
        return None;
    };
    if !all_digits(word) {
        return None;
    }
    Order::new([
        digit(first),
        digit(second),
        digit(third),
        digit(fourth),
        digit(fifth),
    ])
}

/// The order that a value of the option asks for; none where the option doesn't take it.
#[tactic(auto, unfolding(crate::specs::Orders::order_wanted))]
pub(crate) fn order_wanted(value: &[u8]) -> Option<Wanted>
    ensures { option_map wanted_seen result ≡ order_wanted value.now }
{
    if value == b"best".as_slice() {
        return Some(Wanted::Best);
    }
    Some(Wanted::In(order_written(value)?))
}
