//! What the words of a command line spell.
//!
//! All commands have one grammar. The first word is the command's name. Among the others an option takes the next word
//! as its value, or what follows `=` in its own word; the first `--` that is no such value ends the options; every
//! other word is a plain word, unless it has a `-` in front and more behind it, which makes the words no command.
//! `commands` has a row for each command: its name, which options it takes or needs, and what its plain words are
//! called; the usage text is made of these rows. Behind them stands the [`Command`] of each name, over what the options
//! come to and the plain words, which are file words, numbers, or what is asked of a list. A further command is a row, a
//! variant and a case there, and in `specs/Commands.antt`; a further option is a name in `option`.
//!
//! ```text
//! let command = spelled_command(&words)?; // of `expand --limit 5 in`
//! ```
//!
//! What is promised:
//!
//! - [`spelled_command`] answers exactly the command that the words spell by `specs/Spelling.antt`, with its numbers,
//!   its file words and what is asked of a list, and none exactly where they spell none. The values of options and
//!   numbers lie in their ranges, and no two file words are equal.
//! - [`write_usage`] writes exactly the usage text, which the definitions make of the same forms.
//! - [`rows`] has each rule of the grammar on small examples, proved from the definitions.
//!
//! `specs/Spelling.antt` says what words spell: the words are parted into items, at most one value is given to each
//! option, the form takes the values or doesn't, and the name makes a command of them and the plain words. The code
//! reads the words once, from left to right, and takes no memory.
//!
//! | Module | Holds |
//! |---|---|
//! | `spelling` | the call |
//! | `commands`, `form` | the row and the command of each name |
//! | `option`, `settings`, `sizes`, `wanted`, `swap`, `sessions` | the options, which of them a command takes, and what they come to |
//! | `parts`, `reading`, `plain` | words read from left to right, options and plain words |
//! | `operands`, `files`, `number`, `drawing`, `question` | what plain words come to |
//! | `words`, `usage`, `rows` | the words of a call, the usage text, and worked rows |
#![tactic(auto)]

mod commands;
mod drawing;
mod files;
mod form;
mod number;
mod operands;
mod option;
mod parts;
mod plain;
mod question;
mod reading;
pub mod rows;
mod sessions;
mod settings;
mod sizes;
mod spelling;
mod swap;
mod usage;
mod wanted;
mod words;

pub use commands::{Command, Method};
pub use operands::{Drawing, Question, ScriptRun, ThreeFiles, TwoFiles};
pub use plain::PlainWords;
pub use sessions::{Making, SessionTerms};
pub use sizes::{Sizes, Slots};
pub use spelling::spelled_command;
pub use swap::Swap;
pub use usage::write_usage;
pub use wanted::Wanted;
pub use words::Words;
