//! The command that words spell.
ghost use Rattle.std.specs.Prelude.{◌≡◌};
ghost use Rattle.std.specs.Option.{option_map};
ghost use Rattle.command_words.specs.Commands.{command_seen};
ghost use Rattle.command_words.specs.Spelling.{command_of};

use crate::commands::{Command, form_named, named};
use crate::parts::parted;
use crate::settings::settings_of;
use crate::words::Words;

/// The command that the words spell; none where they spell none. It takes no memory.
pub fn spelled_command(words: &Words) -> Option<Command<'_>>
    ensures { option_map command_seen result ≡ command_of words.now }
{
    let [name, rest @ ..] = words.texts() else {
        return None;
    };
    let form = form_named(name.as_str())?;
    let parts = parted(rest)?;
    let settings = settings_of(&form, &parts)?;
    named(form.command, settings, &parts.plain)
}
