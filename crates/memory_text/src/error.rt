//! Why the text of a memory or of a plan is refused.
ghost use Rattle.std.specs.Prelude.{◌≡◌};
ghost use Rattle.memory_text.specs.Reasons.{counts_of, reason_text};

use table_text::TableReason;
use text_lines::TextError;
use thiserror::Error;

/// What is wrong with a line of a memory's text, or of a plan's.
#[derive(Clone, Copy, Debug, PartialEq, Eq, Error)]
#[error("{}", self.words())]
pub enum SlotReason {
    /// What may be wrong with a line of a table's text too.
    #[error("{0}")]
    OfTable(TableReason),
    /// No slot of the memory, or not behind the one before it.
    Slot,
    UnknownWrite,
    #[error("{}, stated {stated} found {found}", self.words())]
    Writes { stated: u32, found: u64 },
}

impl SlotReason {
    /// The reason in words, without counts.
    pub fn words(self) -> &'static str
        ensures { result.now ≡ reason_text self }
    {
        match self {
            SlotReason::OfTable(reason) => reason.words(),
            SlotReason::Slot => "slot",
            SlotReason::UnknownWrite => "unknown write",
            SlotReason::Writes { .. } => "count of writes differs",
        }
    }

    /// How many lines are stated and how many were found, where that is the reason.
    pub fn counts(self) -> Option<(u32, u64)>
        ensures { result ≡ counts_of self }
    {
        match self {
            SlotReason::OfTable(reason) => reason.counts(),
            SlotReason::Writes { stated, found } => Some((stated, found)),
            SlotReason::Slot | SlotReason::UnknownWrite => None,
        }
    }
}

/// Why the text of a memory or of a plan was refused.
pub type SlotError = TextError<SlotReason>;
