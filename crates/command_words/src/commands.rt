//! The commands: how each is spelled, and what it is over what its options come to and its other words.
ghost use Rattle.std.specs.Prelude.{◌≡◌, find, map};
ghost use Rattle.std.specs.Option.{option_map};
ghost use Rattle.std.specs.Str.{bytes_eq};
ghost use Rattle.command_words.specs.Commands.{Drive, Make, command_named, command_seen, forms, method_seen};
ghost use Rattle.command_words.specs.Files.{over_one, over_script};
ghost use Rattle.command_words.specs.Forms.{form_seen};
ghost use Rattle.command_words.specs.PlainWords.{plain_seen};
ghost use Rattle.command_words.specs.Settings.{settings_seen, sizes_of};

use crate::drawing::seed_and_rules;
use crate::files::{is_script_run, one_file, three_files, two_files};
use crate::form::{CommandForm, first_named, row};
use crate::operands::{Drawing, Question, ScriptRun, ThreeFiles, TwoFiles};
use crate::option::{NO_OPTION, ORDER_AND_SIZES, SESSION, SIZES, SLOTS};
use crate::plain::PlainWords;
use crate::question::question_of;
use crate::sessions::{SessionTerms, making_of};
use crate::settings::Settings;
use crate::sizes::{Sizes, Slots};
use crate::wanted::{Wanted, or_best};

/// The commands that are built.
#[derive(Clone, Copy, Debug, PartialEq, Eq)]
pub(crate) enum CommandName {
    Expand,
    Compile,
    Equiv,
    Cert,
    Check,
    Trace,
    Drive,
    Gen,
    Selfrun,
    Migrate,
    Arrange,
    Merge,
    Audit,
    Query,
    Session,
    Trim,
    Shorten,
    Place,
    Patch,
    Apply,
    Dump,
    Verify,
    Prove,
}

/// The forms of the commands that are built, in the order of the usage text.
#[tactic(auto, unfolding(crate::specs::Commands::forms))]
pub(crate) fn forms() -> [CommandForm; 23]
    ensures { map form_seen result ≡ forms }
{
    [
        row(CommandName::Expand, "expand", &SIZES, "LIST"),
        row(CommandName::Compile, "compile", &SIZES, "LIST"),
        row(CommandName::Equiv, "equiv", &NO_OPTION, "A B"),
        row(CommandName::Cert, "cert", &NO_OPTION, "LIST TABLE"),
        row(CommandName::Check, "check", &NO_OPTION, "LIST TABLE CERT"),
        row(CommandName::Trace, "trace", &NO_OPTION, "TABLE TRACE"),
        row(CommandName::Drive, "drive", &SLOTS, "SCRIPT TABLE .."),
        row(CommandName::Gen, "gen", &NO_OPTION, "SEED N"),
        row(CommandName::Selfrun, "selfrun", &NO_OPTION, "SEED N"),
        row(CommandName::Migrate, "migrate", &NO_OPTION, "TABLE"),
        row(CommandName::Arrange, "arrange", &ORDER_AND_SIZES, "LIST"),
        row(CommandName::Merge, "merge", &NO_OPTION, "TABLE"),
        row(CommandName::Audit, "audit", &NO_OPTION, "LIST"),
        row(
            CommandName::Query,
            "query",
            &NO_OPTION,
            "LIST S D SP DP P DECISION",
        ),
        row(CommandName::Session, "session", &SESSION, "SCRIPT LIST"),
        row(CommandName::Trim, "trim", &NO_OPTION, "TABLE"),
        row(CommandName::Shorten, "shorten", &ORDER_AND_SIZES, "LIST"),
        row(CommandName::Place, "place", &SLOTS, "TABLE"),
        row(CommandName::Patch, "patch", &NO_OPTION, "MEMORY TABLE"),
        row(CommandName::Apply, "apply", &NO_OPTION, "MEMORY PLAN"),
        row(CommandName::Dump, "dump", &NO_OPTION, "MEMORY"),
        row(CommandName::Verify, "verify", &NO_OPTION, "LIST TABLE"),
        row(CommandName::Prove, "prove", &NO_OPTION, "LIST TABLE"),
    ]
}

/// The form of the command with the name.
pub(crate) fn form_named(name: &str) -> Option<CommandForm>
    ensures { option_map form_seen result ≡ find (λ form. bytes_eq form.name name.now) forms }
{
    let forms = forms();
    first_named(&forms, name).copied()
}

/// How a table is made of a list.
#[derive(Clone, Copy, Debug, PartialEq, Eq)]
pub enum Method {
    /// The direct expansion.
    Expand,
    /// The composition of the field-by-field least cost.
    Compile,
    /// That composition, over the fields in another order.
    Arrange(Wanted),
    /// A search for a short table; where an order is given, at most the composition in it.
    Shorten(Option<Wanted>),
}

/// A command with its numbers and file words.
#[derive(Clone, Copy)]
pub enum Command<'a> {
    /// Writes the table that the method makes of the list.
    Make {
        method: Method,
        sizes: Sizes,
        list: &'a str,
    },
    /// Says whether two lists decide every header alike, or on which header they first differ.
    Equiv(TwoFiles<'a>),
    /// Writes the certificate that a list and a table decide every header alike, or the first on which they differ.
    Cert(TwoFiles<'a>),
    /// Says whether a certificate or a proof shows that a list and a table decide every header alike.
    Check(ThreeFiles<'a>),
    /// Writes what a table answers to each header of a trace.
    Trace(TwoFiles<'a>),
    /// Runs a script of updates over tables, in a memory of so many slots.
    Drive(ScriptRun<'a>),
    /// Writes the list that a seed gives.
    Gen(Drawing),
    /// Compiles the list that a seed gives, looks up the headers that are drawn behind it, and sums it up.
    Selfrun(Drawing),
    /// Writes a table of either version in the compact text.
    Migrate(&'a str),
    /// Writes a table with its entries merged.
    Merge(&'a str),
    /// Writes the state of each rule of a list.
    Audit(&'a str),
    /// Writes the boxes inside a box in which a list decides as asked.
    Query(Question<'a>),
    /// Edits a list by the commands of a session, and replaces the tables of the list in a memory, on these terms: the
    /// files are the session's and the list's.
    Session {
        terms: SessionTerms,
        files: TwoFiles<'a>,
    },
    /// Writes a table without its redundant entries.
    Trim(&'a str),
    /// Writes a memory of so many slots in which a table stands.
    Place {
        slots: Slots,
        table: &'a str,
    },
    /// Writes a plan that leads from a memory to a table.
    Patch(TwoFiles<'a>),
    /// Writes a memory after the writes of a plan.
    Apply(TwoFiles<'a>),
    /// Writes the table that stands in a memory.
    Dump(&'a str),
    /// Says whether a list and a table decide every header alike, or on which header they first differ.
    Verify(TwoFiles<'a>),
    /// Writes a proof of that, which `check` takes.
    Prove(TwoFiles<'a>),
}

/// The command that makes a table of the only file.
fn making<'a>(method: Method, sizes: Sizes, words: &PlainWords<'a>) -> Option<Command<'a>>
    ensures { option_map command_seen result ≡ over_one (Make (method_seen method) (sizes_of sizes)) (plain_seen words.now) }
{
    Some(Command::Make {
        method,
        sizes,
        list: one_file(words)?,
    })
}

/// The command that runs a script over tables in a memory of so many slots.
fn driving<'a>(slots: Slots, words: &PlainWords<'a>) -> Option<Command<'a>>
    ensures { option_map command_seen result ≡ over_script (Drive slots.count) (plain_seen words.now) }
{
    if is_script_run(words.as_slice()) {
        Some(Command::Drive(ScriptRun {
            slots,
            words: *words,
        }))
    } else {
        None
    }
}

/// The command of the name.
pub(crate) fn named<'a>(
    name: CommandName,
    settings: Settings,
    words: &PlainWords<'a>,
) -> Option<Command<'a>>
    ensures { option_map command_seen result ≡ command_named name (settings_seen settings) (plain_seen words.now) }
{
    let Settings {
        sizes,
        slots,
        order,
        swap,
        by,
    } = settings;
    match name {
        CommandName::Expand => making(Method::Expand, sizes, words),
        CommandName::Compile => making(Method::Compile, sizes, words),
        CommandName::Equiv => Some(Command::Equiv(two_files(words)?)),
        CommandName::Cert => Some(Command::Cert(two_files(words)?)),
        CommandName::Check => Some(Command::Check(three_files(words)?)),
        CommandName::Trace => Some(Command::Trace(two_files(words)?)),
        CommandName::Drive => driving(slots, words),
        CommandName::Gen => Some(Command::Gen(seed_and_rules(words)?)),
        CommandName::Selfrun => Some(Command::Selfrun(seed_and_rules(words)?)),
        CommandName::Migrate => Some(Command::Migrate(one_file(words)?)),
        CommandName::Arrange => making(Method::Arrange(or_best(order)), sizes, words),
        CommandName::Merge => Some(Command::Merge(one_file(words)?)),
        CommandName::Audit => Some(Command::Audit(one_file(words)?)),
        CommandName::Query => Some(Command::Query(question_of(words)?)),
        CommandName::Session => Some(Command::Session {
            terms: SessionTerms {
                slots,
                sizes,
                making: making_of(by, order)?,
                swap,
            },
            files: two_files(words)?,
        }),
        CommandName::Trim => Some(Command::Trim(one_file(words)?)),
        CommandName::Shorten => making(Method::Shorten(order), sizes, words),
        CommandName::Place => Some(Command::Place {
            slots,
            table: one_file(words)?,
        }),
        CommandName::Patch => Some(Command::Patch(two_files(words)?)),
        CommandName::Apply => Some(Command::Apply(two_files(words)?)),
        CommandName::Dump => Some(Command::Dump(one_file(words)?)),
        CommandName::Verify => Some(Command::Verify(two_files(words)?)),
        CommandName::Prove => Some(Command::Prove(two_files(words)?)),
    }
}
