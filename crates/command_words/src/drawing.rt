//! What is to be drawn.
ghost use Rattle.std.specs.Prelude.{◌≡◌, ℕ};
ghost use Rattle.std.specs.Option.{option_map};
ghost use Rattle.command_words.specs.Commands.{Command};
ghost use Rattle.command_words.specs.Numbers.{drawing};
ghost use Rattle.command_words.specs.PlainWords.{plain_seen};

use crate::number::number_between;
use crate::operands::Drawing;
use crate::plain::PlainWords;
use razor_base::limits::MOST_RULES;

/// The seed and the number of rules that are to be drawn.
pub(crate) fn seed_and_rules(words: &PlainWords<'_>) -> Option<Drawing>
    ensures { (make : ℕ → ℕ → Command) → option_map (λ drawing. make drawing.seed drawing.rules) result ≡ drawing make (plain_seen words.now) }
{
    match words.as_slice() {
        [seed, rules] => Some(Drawing {
            seed: number_between(seed.as_bytes(), 0, 2_147_483_647)?,
            rules: number_between(rules.as_bytes(), 0, MOST_RULES)?,
        }),
        _ => None,
    }
}
