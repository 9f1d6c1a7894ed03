//! What texts of lines have in common: lines, cuts at a separator, columns, numbers written in digits, and the loop that
//! takes line after line.
//!
//! ```text
//! let (line, rest) = next_line(text)?;
//! let (column, rest) = next_column(line)?;
//! let number = number_within(column, 10, 65_535)?;
//! ```
//!
//! Every call answers exactly as the definition of its name in `specs/`, each of a few lines: [`next_line`] and
//! [`next_whole_line`] the next line and what follows it, none exactly at the end; [`split_once`] and [`parts_at`] the
//! parts at a separator; [`next_column`] the first column and what stands behind it; [`number_within`],
//! [`plain_number`] and [`short_number`] the number that a text writes, none exactly where it writes none or a greater
//! one than allowed. [`take_lines`] gives the lines that aren't skipped to a [`TakeLine`], up to the first bad one, and
//! comes to what `specs/Headline/Reading.antt` says of its step. No call takes memory of its own.
//!
//! | Module | Holds |
//! |---|---|
//! | `line`, `column`, `cut` | lines, columns, and cuts at a separator |
//! | `number` | numbers in digits of a base |
//! | `reading`, `error` | a text taken line by line, and why one is refused |
#![tactic(auto)]

mod column;
mod cut;
mod error;
mod line;
mod number;
mod reading;

pub use column::{column_start, is_blank, next_column};
pub use cut::{parts_at, split_once};
pub use error::{LineError, TextError};
pub use line::{is_ascii_line, is_skipped, next_line, next_whole_line, without_return};
pub use number::{
    digit, has_leading_zero, number_up_to, number_within, plain_number, short_number,
};
pub use reading::{TakeLine, take_lines};
