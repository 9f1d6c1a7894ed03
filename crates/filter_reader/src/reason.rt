//! The reasons why a line of a list is bad.
ghost use Rattle.std.specs.Prelude.{◌≡◌};
ghost use Rattle.filter_reader.specs.Reasons.{reason_text};

use text_lines::TextError;
use thiserror::Error;

/// Why a line of a list is bad.
#[derive(Clone, Copy, Debug, PartialEq, Eq, Error)]
#[error("{}", self.words())]
pub enum Reason {
    /// The first token doesn't begin with `@`.
    NoAt = 1,
    /// A token isn't four numbers parted by dots, each of one to three digits and at most 255, up to
    /// its first `/`.
    Address = 2,
    /// There is no `/`, or no length of one or two digits and at most 32 follows it.
    Length = 3,
    /// A port column isn't ranges of digits, `:`, digits, parted by `,`.
    PortForm = 4,
    /// A range begins above its end.
    PortOrder = 5,
    /// A port is above 65535.
    PortRange = 6,
    /// A protocol isn't two hexadecimal numbers of one or two digits, `0xP/0xM`.
    ProtocolForm = 7,
    /// The mask of a protocol is neither 00 nor FF.
    ProtocolMask = 8,
    /// Flags aren't two hexadecimal numbers of one to four digits, `0xF/0xM`.
    FlagsForm = 9,
    /// A decision isn't 1 to 32 letters of ASCII, digits, `_`, `-` and `.`.
    DecisionForm = 10,
    /// The decision is the word for no decision, `miss`.
    Reserved = 11,
    /// A token stands behind the decision.
    Extra = 12,
    /// 65,536 rules stand before this one.
    TooManyRules = 13,
    /// The line has a byte above 127.
    NotAscii = 14,
    /// A port column has more than 16 ranges.
    TooManyRanges = 16,
}

impl Reason {
    /// The reason in words.
    pub fn words(self) -> &'static str
        ensures { result.now ≡ reason_text self }
    {
        match self {
            Reason::NoAt => "no @",
            Reason::Address => "address",
            Reason::Length => "length",
            Reason::PortForm => "port form",
            Reason::PortOrder => "port order",
            Reason::PortRange => "port range",
            Reason::ProtocolForm => "protocol form",
            Reason::ProtocolMask => "protocol mask",
            Reason::FlagsForm => "flags form",
            Reason::DecisionForm => "decision form",
            Reason::Reserved => "reserved word",
            Reason::Extra => "extra column",
            Reason::TooManyRules => "one rule too many",
            Reason::NotAscii => "byte not ASCII",
            Reason::TooManyRanges => "too many ranges",
        }
    }
}

/// Why the text of a list was refused.
pub type ListError = TextError<Reason>;
