//! Why a proof is wrong.

use thiserror::Error;

/// How many rules a list has, and how many entries a table.
#[derive(Clone, Copy, Debug, PartialEq, Eq, Error)]
#[error("{rules} {entries}")]
pub struct Counts {
    pub rules: u32,
    pub entries: u32,
}

/// Why a line is wrong. The reasons are tried in this order.
#[derive(Clone, Copy, Debug, PartialEq, Eq, Error)]
pub enum Why {
    /// A line of another form, or of another kind than is due; or a number that no rule, entry, field or bit has.
    #[error("form")]
    Form,
    /// The first line states other counts than list and table have.
    #[error("counts differ, stated {stated} found {found}")]
    CountsDiffer { stated: Counts, found: Counts },
    /// List and table decide the stated header alike.
    #[error("decisions do not differ")]
    DecidedAlike,
    /// The pair doesn't come behind the one before it.
    #[error("order")]
    Order,
    /// The entry isn't covered as the line says.
    #[error("cover of entry")]
    EntryCover,
    /// The rule isn't.
    #[error("cover of rule")]
    RuleCover,
    /// What rule and entry of the pair both have isn't.
    #[error("cover of pair")]
    PairCover,
    /// The first open pair that has no line, by the numbers of its rule and its entry, from 1.
    #[error("pair {rule} {entry} missing")]
    PairMissing { rule: u32, entry: u32 },
    /// The last line states another number of pairs than there are.
    #[error("counts differ, stated {stated} found {found}")]
    PairsDiffer { stated: u32, found: u64 },
    /// The proof ends before its last line.
    #[error("ends early")]
    EndsEarly,
}

/// The line that is wrong, from 1, and why.
#[derive(Clone, Copy, Debug, PartialEq, Eq, Error)]
#[error("wrong line {line}: {why}")]
pub struct Wrong {
    pub line: u64,
    pub why: Why,
}
