//! Taking the turn of an input that is read whole.
ghost use Rattle.std.specs.Prelude.{◌≡◌, ◌≢◌, ◌≤◌, ℕ, List, IfOk, MatchResult, Ok, length};
ghost use Rattle.razor_limits.specs.declared.limits.TheConstants.{MOST_CERTIFICATE_BYTES};
ghost use Rattle.razor_base.specs.Headline.Outcomes.{Extends};
ghost use Rattle.razor_base.specs.Headline.Readings.{given};
ghost use Rattle.razor_base.specs.Texts.{MayHold, StaysUnread, left_in};
ghost use Rattle.razor_base.specs.Turns.{IsWholeTurn};
ghost use Rattle.razor_core.specs.Calls.{EndsTurnReads};
ghost use Rattle.razor_core.specs.Inputs.{Kind, Value, input_of, most_bytes, spelled_by};
ghost use Rattle.razor_core.specs.Taking.{EndsTurn, IsFaultOf, IsReadWhole, IsUnspelled, TakesTurn};

use crate::ending::Ending;
use razor_base::{Desk, ReadError, read_all};
use std::alloc::Global;

/// A kind of text that is read whole before anything of it is taken.
pub trait WholeText {
    /// What a text without a bad line spells.
    type Spelled;

    /// The kind.
    ghost kind: { Self → Kind };

    /// What the spelled is a value of.
    ghost value: { Self.Spelled → Value };

    /// What is known of all that is spelled.
    ghost holds: { Self → Self.Spelled → Type 0 };

    /// The greatest number of bytes of such a text.
    fn most(&self) -> u64
        ensures most { result ≡ most_bytes (kind self.now) }
        ensures within { result ≤ MOST_CERTIFICATE_BYTES };

    /// What the bytes of the file spell, or how the command ends on their first bad line.
    fn read<'a>(
        &self,
        alloc: Global,
        file: &'a str,
        text: &[u8],
    ) -> Result<Self::Spelled, Ending<'a>>
        requires { length text.now ≤ most_bytes (kind self.now) }
        ensures spelled { MatchResult result
            (λ spelled. spelled_by (kind self.now) text.now ≡ Ok (value spelled))
            (λ ending. IsUnspelled (kind self.now) file.now text.now ending) }
        ensures holds { IfOk result (λ spelled. holds self.now spelled) };

    /// A text of more bytes is too long.
    ghost whole: { (self : Self) → IsReadWhole (kind self) };
}

/// The ending of a command whose input couldn't be read whole.
fn not_read(file: &str, limit: u64, error: ReadError) -> Ending<'_>
    ensures { IsFaultOf file.now limit error result }
{
    match error {
        ReadError::Fault => Ending::ReadFault { file },
        ReadError::TooLong => Ending::TooLong { file, limit },
        ReadError::Memory => Ending::Memory,
    }
}

/// Takes the turn of an input: reads it whole and takes what it spells, or says how the command ends.
pub fn take<'a, T: WholeText, D: Desk>(
    alloc: Global,
    kind: &T,
    file: &'a str,
    desk: &mut D,
) -> Result<T::Spelled, Ending<'a>>
    ensures turn { (text : List ℕ) → MayHold (D.reads desk.new) file.now text → MatchResult result
        (λ spelled. TakesTurn (input_of (T.kind kind.now) file.now) (left_in text (given (D.reads desk.old) file.now)) (left_in text (given (D.reads desk.new) file.now)) (T.value spelled))
        (λ ending. EndsTurn (input_of (T.kind kind.now) file.now) (left_in text (given (D.reads desk.old) file.now)) (left_in text (given (D.reads desk.new) file.now)) (D.faults desk.old file.now) (D.faults desk.new file.now) ending) }
    ensures reads { Extends (D.reads desk.old) (D.reads desk.new) (λ added. MatchResult result (λ spelled. IsWholeTurn file.now added) (λ ending. EndsTurnReads file.now ending added)) }
    ensures holds { IfOk result (λ spelled. T.holds kind.now spelled) }
    ensures counts { (other : List ℕ) → D.faults desk.old other ≤ D.faults desk.new other }
    ensures others { (other : List ℕ) → other ≢ file.now → StaysUnread (D.reads desk.old) (D.reads desk.new) other }
{
    let limit = kind.most();
    let mut text = Vec::new(alloc);
    if let Err(error) = read_all(desk, file, limit, &mut text) {
        return Err(not_read(file, limit, error));
    }
    kind.read(alloc, file, &text)
}
