//! The values of the options and the plain words among words, read from left to right.
ghost use Rattle.std.specs.Prelude.{◌≡◌, ◌<◌, Option, Some, None, length, map, IfSome, option_and_then};
ghost use Rattle.command_words.specs.Items.{items_of};
ghost use Rattle.command_words.specs.Spelling.{found_among};
ghost use Rattle.std.specs.Option.{option_map};
ghost use Rattle.std.specs.String.{string_bytes};
ghost use Rattle.command_words.specs.Parts.{first_value, found_seen, nothing_found, with_value, with_words};

use crate::option::OptionName;
use crate::plain::PlainWords;
use crate::reading::{WordKind, kind_of};

/// What was found among words: at most one value of each option, and the plain words.
#[derive(Clone, Copy)]
pub(crate) struct Parts<'a> {
    pub limit: Option<&'a [u8]>,
    pub slot: Option<&'a [u8]>,
    pub slots: Option<&'a [u8]>,
    pub order: Option<&'a [u8]>,
    pub swap: Option<&'a [u8]>,
    pub by: Option<&'a [u8]>,
    pub plain: PlainWords<'a>,
}

/// Keeps the value; none where there is one.
fn keep_first<'a>(place: &mut Option<&'a [u8]>, value: &'a [u8]) -> Option<()>
    ensures { option_map (λ done. option_map (λ kept. kept.now) place.new) result ≡ first_value (option_map (λ kept. kept.now) place.old) value.entry.now }
{
    if place.is_some() {
        return None;
    }
    *place = Some(value);
    Some(())
}

impl<'a> Parts<'a> {
    /// Nothing yet.
    fn new() -> Parts<'a>
        ensures { found_seen result ≡ nothing_found }
    {
        Parts {
            limit: None,
            slot: None,
            slots: None,
            order: None,
            swap: None,
            by: None,
            plain: PlainWords::new(),
        }
    }

    /// Keeps the value of the option; none where the option has one.
    fn give(&mut self, option: OptionName, value: &'a [u8]) -> Option<()>
        ensures { option_map (λ done. found_seen self.new) result ≡ with_value (found_seen self.old) option value.entry.now }
    {
        match option {
            OptionName::Limit => keep_first(&mut self.limit, value),
            OptionName::Slot => keep_first(&mut self.slot, value),
            OptionName::Slots => keep_first(&mut self.slots, value),
            OptionName::Order => keep_first(&mut self.order, value),
            OptionName::Swap => keep_first(&mut self.swap, value),
            OptionName::By => keep_first(&mut self.by, value),
        }
    }

    /// Reads the first item of the words, and gives the words after it. None where there is no item, an
    /// option has a value already, or there are nine plain words.
    fn take(&mut self, words: &'a [String]) -> Option<&'a [String]>
        requires { 0 < length words.now }
        ensures same { option_and_then (λ rest. with_words (found_seen self.new) (map string_bytes rest.now)) result
            ≡ with_words (found_seen self.old) (map string_bytes words.entry.now) }
        ensures shorter { IfSome result (λ rest. length rest.now < length words.entry.now) }
    {
        let [word, rest @ ..] = words else {
            return None;
        };
        match kind_of(word.as_bytes()) {
            WordKind::Ends => {
                self.plain.push_all(rest)?;
                Some(&[])
            }
            WordKind::Awaits(option) => {
                let [value, rest @ ..] = rest else {
                    return None;
                };
                self.give(option, value.as_bytes())?;
                Some(rest)
            }
            WordKind::Gives(option, value) => {
                self.give(option, value)?;
                Some(rest)
            }
            WordKind::Stands => {
                self.plain.push(word.as_str())?;
                Some(rest)
            }
            WordKind::Fails => None,
        }
    }
}

/// What is found among the words; none where they are no options and plain words, an option is given
/// twice, or there are more than nine plain words.
pub(crate) fn parted(words: &[String]) -> Option<Parts<'_>>
    ensures { option_map found_seen result ≡ option_and_then found_among (items_of None (map string_bytes words.now)) }
{
    let mut parts = Parts::new();
    let mut left = words;
    while !left.is_empty() {
        left = parts.take(left)?;
    }
    Some(parts)
}
