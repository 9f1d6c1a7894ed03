//! The form of a command.
ghost use Rattle.std.specs.Prelude.{◌≡◌, find};
ghost use Rattle.std.specs.Option.{option_copied, option_map};
ghost use Rattle.std.specs.Str.{bytes_eq};
ghost use Rattle.command_words.specs.Forms.{form_seen, row};
ghost use Rattle.command_words.specs.Options.{need_of};

use crate::commands::CommandName;
use crate::option::{Need, OptionName, Taken};

/// How a command is spelled: its name, the options that it takes in the order of the usage text, and how the usage text
/// calls its other words.
#[derive(Clone, Copy, Debug)]
pub(crate) struct CommandForm {
    pub command: CommandName,
    pub name: &'static str,
    pub options: &'static [Taken],
    pub label: &'static str,
}

/// The form of a command.
pub(crate) fn row(
    command: CommandName,
    name: &'static str,
    options: &'static [Taken],
    label: &'static str,
) -> CommandForm
    ensures { form_seen result ≡ row command name.now options.now label.now }
{
    CommandForm {
        command,
        name,
        options,
        label,
    }
}

/// Whether the option has to be there; none where it isn't one of these.
pub(crate) fn need_of(options: &[Taken], option: OptionName) -> Option<Need>
    ensures { result ≡ need_of options.now option }
{
    let taken = options.iter().find(|taken| taken.option.is(option))?;
    Some(taken.need)
}

/// The first of the forms with the name.
pub(crate) fn first_named<'a>(forms: &'a [CommandForm], name: &str) -> Option<&'a CommandForm>
    ensures { option_copied result ≡ find (λ form. bytes_eq form.name.now name.now) forms.entry.now }
{
    forms.iter().find(|form| form.name == name)
}
