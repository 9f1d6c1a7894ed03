//! Number words.
ghost use Rattle.std.specs.Prelude.{◌≡◌, ◌≤◌, IfSome};
ghost use Rattle.command_words.specs.Numbers.{number_between};

use text_lines::short_number;

/// The number that the word writes in one to ten digits, leading zeros allowed; none where it is no such
/// word, or the number doesn't lie between these.
#[tactic(auto, unfolding(crate::specs::Numbers::number_between))]
pub(crate) fn number_between(word: &[u8], least: u32, greatest: u32) -> Option<u32>
    ensures value { result ≡ number_between least greatest word.now }
    ensures range { IfSome result (λ n. (least ≤ n) × (n ≤ greatest)) }
{
    let number = short_number(word, 10, 10, greatest)?;
    if least <= number { Some(number) } else { None }
}
