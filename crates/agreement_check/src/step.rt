//! The words of a cover.
ghost use Rattle.std.specs.Prelude.{◌≡◌};
ghost use Rattle.agreement_check.specs.Steps.{place_in, step_of};

use text_lines::plain_number;

/// What a word says of the next cube of a cover.
#[derive(Clone, Copy, Debug, PartialEq, Eq)]
pub enum Step {
    /// It lies in the rule at this place.
    InRule(u32),
    /// It lies in the entry at this place.
    InEntry(u32),
    /// It misses the rule that is covered.
    Missed,
    /// Its least header isn't below the one that the proof states.
    Late,
    /// Its halves at this bit are covered, first the one with 0 there.
    Halved(u32),
}

/// Which words a cover may have: how many rules and entries there are, each with the open one, and whether a cube may miss
/// a rule or be late.
#[derive(Clone, Copy)]
pub(crate) struct Terms {
    pub(crate) rules: u32,
    pub(crate) entries: u32,
    pub(crate) missed: bool,
    pub(crate) late: bool,
}

/// The place, from 0, of the item whose number, from 1 up to their count, the text writes.
#[tactic(auto, unfolding(crate::specs::Steps::place_in))]
pub(crate) fn place_in(count: u32, text: &[u8]) -> Option<u32>
    ensures { result ≡ place_in count text.now }
{
    let number = plain_number(text, count)?;
    if number == 0 {
        return None;
    }
    Some(number - 1)
}

/// The step that the word spells.
#[tactic(auto, unfolding(crate::specs::Steps::step_of))]
pub(crate) fn step_of(terms: &Terms, word: &[u8]) -> Option<Step>
    ensures { result ≡ step_of terms.now word.now }
{
    if word == b"-".as_slice() {
        return if terms.missed {
            Some(Step::Missed)
        } else {
            None
        };
    }
    if word == b">".as_slice() {
        return if terms.late { Some(Step::Late) } else { None };
    }
    if word.starts_with(b"r") {
        let place = place_in(terms.rules, &word[1..])?;
        return Some(Step::InRule(place));
    }
    if word.starts_with(b"e") {
        let place = place_in(terms.entries, &word[1..])?;
        return Some(Step::InEntry(place));
    }
    let bit = plain_number(word, 103)?;
    Some(Step::Halved(bit))
}
