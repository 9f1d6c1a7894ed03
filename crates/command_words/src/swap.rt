//! How the tables of a session are replaced.
ghost use Rattle.std.specs.Prelude.{◌≡◌};
ghost use Rattle.std.specs.Option.{option_map};
ghost use Rattle.command_words.specs.Settings.{swap_seen};
ghost use Rattle.command_words.specs.Swaps.{swap_written};

/// How the tables of a session are replaced.
#[derive(Clone, Copy, Debug, PartialEq, Eq)]
pub enum Swap {
    /// Each is written whole beside the old one.
    Whole,
    /// Each is written in the slots of the old one, by few writes.
    InPlace,
}

/// The way that a value of the option writes; none where the option doesn't take it.
pub(crate) fn swap_written(value: &[u8]) -> Option<Swap>
    ensures { option_map swap_seen result ≡ swap_written value.now }
{
    if value == b"whole".as_slice() {
        return Some(Swap::Whole);
    }
    if value == b"patch".as_slice() {
        return Some(Swap::InPlace);
    }
    None
}
