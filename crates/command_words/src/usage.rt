//! The usage text, line by line.
ghost use Rattle.std.specs.Prelude.{◌≡◌, map};
ghost use Rattle.std.specs.List.{flat_map};
ghost use Rattle.razor_base.specs.Output.{Puts, Writes};
ghost use Rattle.command_words.specs.Forms.{form_seen};
ghost use Rattle.command_words.specs.Usage.{closing, opening, option_usage, usage_line, usage_text};

use crate::commands::forms;
use crate::form::CommandForm;
use crate::option::{Need, Taken};
use razor_base::{Failed, Part, Pending, Sink, put_parts};

/// What stands in front of an option: a bracket where it may be left out.
fn opening(need: Need) -> &'static str
    ensures { result.now ≡ opening need }
{
    match need {
        Need::Maybe => " [",
        Need::Always => " ",
    }
}

/// What stands behind its value.
fn closing(need: Need) -> &'static str
    ensures { result.now ≡ closing need }
{
    match need {
        Need::Maybe => "]",
        Need::Always => "",
    }
}

/// Puts an option as a command takes it.
fn put_option<K: Sink>(taken: &Taken, pending: &mut Pending, out: &mut K) -> Result<(), Failed>
    ensures { Puts K.written K.faults out.old out.new pending.old pending.new (option_usage taken.now) result }
{
    put_parts(
        pending,
        out,
        &[
            Part::Text(opening(taken.need)),
            Part::Text(taken.option.text()),
            Part::Text(taken.option.value_label()),
            Part::Text(closing(taken.need)),
        ],
    )
}

/// Puts the options.
fn put_options<K: Sink>(options: &[Taken], pending: &mut Pending, out: &mut K) -> Result<(), Failed>
    ensures { Puts K.written K.faults out.old out.new pending.old pending.new (flat_map option_usage options.now) result }
{
    for taken in options {
        put_option(taken, pending, out)?;
    }
    Ok(())
}

/// Puts the line of the command.
fn put_line<K: Sink>(form: &CommandForm, pending: &mut Pending, out: &mut K) -> Result<(), Failed>
    ensures { Puts K.written K.faults out.old out.new pending.old pending.new (usage_line (form_seen form.now)) result }
{
    put_parts(pending, out, &[Part::Text("  "), Part::Text(form.name)])?;
    put_options(form.options, pending, out)?;
    put_parts(
        pending,
        out,
        &[Part::Text(" "), Part::Text(form.label), Part::Text("\n")],
    )
}

/// Puts the lines of these commands.
fn put_lines<K: Sink>(
    forms: &[CommandForm],
    pending: &mut Pending,
    out: &mut K,
) -> Result<(), Failed>
    ensures { Puts K.written K.faults out.old out.new pending.old pending.new (flat_map usage_line (map form_seen forms.now)) result }
{
    for form in forms {
        put_line(form, pending, out)?;
    }
    Ok(())
}

/// Writes the usage text: which commands there are, and what their words are called.
#[inline(never)]
pub fn write_usage<K: Sink>(out: &mut K) -> Result<(), Failed>
    ensures { Writes K.written K.faults out.old out.new usage_text result }
{
    let mut pending = Pending::new();
    put_parts(&mut pending, out, &[Part::Text("usage: razor COMMAND\n")])?;
    put_lines(&forms(), &mut pending, out)?;
    pending.flush(out)
}
