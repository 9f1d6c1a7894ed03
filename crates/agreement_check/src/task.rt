//! What the covers of a proof have to show.
ghost use Rattle.std.specs.Prelude.{◌≡◌};
ghost use Rattle.agreement_check.specs.Claims.{entry_claim, pair_claim, rule_claim};
ghost use Rattle.agreement_check.specs.Views.{claim_of, sides_in};

use crate::pair::Pair;
use crate::sides::Sides;
use ternary_words::Word;
use word_cover::meet;

/// What a cover has to show: each header of the cube that the rule at a place has, one of the first rules or of the first
/// entries has, of so many.
#[derive(Clone, Copy)]
pub struct Task {
    pub cube: Word,
    pub of: u32,
    pub rules: u32,
    pub entries: u32,
}

/// That the entry at the place is covered by rules and by the entries before it.
pub fn entry_task(sides: &Sides, place: u32) -> Task
    ensures { claim_of result ≡ entry_claim (sides_in sides.now) place }
{
    let rules = sides.rule_count();
    Task {
        cube: sides.entry_word(place),
        of: rules,
        rules: rules + 1,
        entries: place,
    }
}

/// That the rule at the place is covered by the rules before it and by entries.
pub fn rule_task(sides: &Sides, place: u32) -> Task
    ensures { claim_of result ≡ rule_claim (sides_in sides.now) place }
{
    Task {
        cube: sides.rule_word(place),
        of: place,
        rules: place,
        entries: sides.entry_count() + 1,
    }
}

/// That what both have is covered by the rules and the entries before them.
pub fn pair_task(sides: &Sides, pair: &Pair) -> Task
    ensures { claim_of result ≡ pair_claim (sides_in sides.now) pair.now }
{
    let rule = sides.rule_word(pair.rule);
    let entry = sides.entry_word(pair.entry);
    Task {
        cube: meet(&rule, &entry),
        of: pair.rule,
        rules: pair.rule,
        entries: pair.entry,
    }
}
