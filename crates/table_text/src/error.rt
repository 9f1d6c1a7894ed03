//! Why the text of a table is refused.
ghost use Rattle.std.specs.Prelude.{◌≡◌};
ghost use Rattle.table_text.specs.Reasons.{counts_of, reason_text};

use text_lines::TextError;
use thiserror::Error;

/// What is wrong with a line of a table's text.
#[derive(Clone, Copy, Debug, PartialEq, Eq, Error)]
#[error("{}", self.words())]
pub enum TableReason {
    FirstLine,
    WordLength,
    Trit,
    Padding,
    Decision,
    #[error("{}, stated {stated} found {found}", self.words())]
    Count { stated: u32, found: u64 },
    FieldForm,
    OutsideMask,
}

impl TableReason {
    /// The reason in words, without counts.
    pub fn words(self) -> &'static str
        ensures { result.now ≡ reason_text self }
    {
        match self {
            TableReason::FirstLine => "first line",
            TableReason::WordLength => "word length",
            TableReason::Trit => "trit",
            TableReason::Padding => "padding",
            TableReason::Decision => "decision",
            TableReason::Count { .. } => "count of entries differs",
            TableReason::FieldForm => "field form",
            TableReason::OutsideMask => "value outside mask",
        }
    }

    /// How many lines are stated and how many were found, where that is the reason.
    pub fn counts(self) -> Option<(u32, u64)>
        ensures { result ≡ counts_of self }
    {
        match self {
            TableReason::Count { stated, found } => Some((stated, found)),
            TableReason::FirstLine
            | TableReason::WordLength
            | TableReason::Trit
            | TableReason::Padding
            | TableReason::Decision
            | TableReason::FieldForm
            | TableReason::OutsideMask => None,
        }
    }
}

/// Why the text of a table was refused.
pub type TableError = TextError<TableReason>;
