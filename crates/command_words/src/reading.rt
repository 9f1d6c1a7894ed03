//! How a word reads that is no option's value.
ghost use Rattle.std.specs.Prelude.{◌≡◌};
ghost use Rattle.std.specs.Option.{option_map};
ghost use Rattle.command_words.specs.Items.{as_option, as_some_option, is_dashed, reading_of};
ghost use Rattle.command_words.specs.Views.{kind_seen};

use crate::option::OptionName;

/// How a word reads.
#[derive(Clone, Copy)]
pub(crate) enum WordKind<'a> {
    /// `--`, which ends the options.
    Ends,
    /// An option, whose value is the next word.
    Awaits(OptionName),
    /// An option, `=` and its value.
    Gives(OptionName, &'a [u8]),
    /// A plain word.
    Stands,
    /// A word with a `-` in front that is no option.
    Fails,
}

/// The word as this option, alone or with a value; none where it isn't.
fn as_option<'a>(option: OptionName, word: &'a [u8]) -> Option<WordKind<'a>>
    ensures { option_map kind_seen result ≡ as_option option word.now }
{
    match word.strip_prefix(option.text().as_bytes())? {
        [] => Some(WordKind::Awaits(option)),
        [b'=', value @ ..] => Some(WordKind::Gives(option, value)),
        _ => None,
    }
}

/// Whether the word is a `-` and a byte more.
fn dashed(word: &[u8]) -> bool
    ensures { result ≡ is_dashed word.now }
{
    match word {
        [b'-', _, ..] => true,
        _ => false,
    }
}

/// The word as an option, alone or with a value; none where it is no option.
fn as_some_option(word: &[u8]) -> Option<WordKind<'_>>
    ensures { option_map kind_seen result ≡ as_some_option word.now }
{
    if let Some(kind) = as_option(OptionName::Limit, word) {
        return Some(kind);
    }
    if let Some(kind) = as_option(OptionName::Slot, word) {
        return Some(kind);
    }
    if let Some(kind) = as_option(OptionName::Slots, word) {
        return Some(kind);
    }
    if let Some(kind) = as_option(OptionName::Order, word) {
        return Some(kind);
    }
    if let Some(kind) = as_option(OptionName::Swap, word) {
        return Some(kind);
    }
    as_option(OptionName::By, word)
}

/// How the word reads.
#[tactic(auto, unfolding(crate::specs::Items::reading_of))]
pub(crate) fn kind_of(word: &[u8]) -> WordKind<'_>
    ensures { kind_seen result ≡ reading_of word.now }
{
    if word == b"--".as_slice() {
        return WordKind::Ends;
    }
    if let Some(kind) = as_some_option(word) {
        return kind;
    }
    if dashed(word) {
        WordKind::Fails
    } else {
        WordKind::Stands
    }
}
