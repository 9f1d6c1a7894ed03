//! Reading an input to its end.
ghost use Rattle.std.specs.Prelude.{◌≡◌, ◌≢◌, ◌≤◌, ◌<◌, ◌+◌, ℕ, List, [], ◌∷◌, ◌++◌, length, take, true, OnOk, OnErr, IfOk, IsErrOf};
ghost use Rattle.razor_limits.specs.Counts.{Rose};
ghost use Rattle.razor_base.specs.Headline.Outcomes.{Extends, outcome_by};
ghost use Rattle.razor_base.specs.Headline.Readings.{ended, given, reading};
ghost use Rattle.razor_base.specs.Texts.{Gives, MayHold, StaysUnread, left_in};
ghost use Rattle.razor_base.specs.Turns.{IsTurnOf};
ghost use Rattle.razor_base.specs.Input.{PassesLimit, ReadsFront, ReadsWhole, TakesFront, TakesAtMost, UnlessFault};
ghost use Rattle.razor_base.specs.declared.read.ReadError.TheVariants.{Fault, TooLong, Memory};
ghost use Rattle.razor_limits.specs.declared.limits.TheConstants.{MOST_CERTIFICATE_BYTES, PIECE_BYTES};

use crate::desk::Desk;
use razor_limits::Failed;
use razor_limits::limits::BUFFER_BYTES;
use std::alloc::AllocError;
use thiserror::Error;

/// Why an input was not read to its end.
#[derive(Clone, Copy, Debug, PartialEq, Eq, Error)]
pub enum ReadError {
    #[error("a read failed")]
    Fault,
    #[error("the input is longer than the limit")]
    TooLong,
    #[error("memory was refused")]
    Memory,
}

impl From<Failed> for ReadError {
    ghost from_gives = { λ _ e. e ≡ Fault };

    fn from(_failed: Failed) -> Self {
        ReadError::Fault
    }
}

impl From<AllocError> for ReadError {
    ghost from_gives = { λ _ e. e ≡ Memory };

    fn from(_refused: AllocError) -> Self {
        ReadError::Memory
    }
}

/// Reads an input to its end, into a vector that is empty.
///
/// It takes time linear in the bytes read, and asks for 16,384 bytes at a time.
#[inline(never)]
pub fn read_all<D: Desk>(
    desk: &mut D,
    name: &str,
    limit: u64,
    into: &mut Vec<u8>,
) -> Result<(), ReadError>
    requires empty { into.old.items ≡ [] }
    requires limit { limit ≤ MOST_CERTIFICATE_BYTES }
    // The reads that it adds, all of this name.
    ensures turn { Extends (D.reads desk.old) (D.reads desk.new) (λ added. IsTurnOf name.now result added) }

    ensures ended { OnOk result (ended (D.reads desk.new) name.now ≡ true) }
    ensures grows { (more : List ℕ) × (given (D.reads desk.new) name.now ≡ given (D.reads desk.old) name.now ++ more) }
    ensures ok { (text : List ℕ) → MayHold (D.reads desk.new) name.now text → OnOk result
        (ReadsWhole (left_in text (given (D.reads desk.old) name.now)) (left_in text (given (D.reads desk.new) name.now)) into.new.items) }
    ensures within { length into.new.items ≤ limit }

    // When each error comes, and what was read before it.
    ensures fault { (text : List ℕ) → MayHold (D.reads desk.new) name.now text → IsErrOf result ReadError.Fault
        → Rose (D.faults desk.old name.now) (D.faults desk.new name.now)
        × TakesFront (left_in text (given (D.reads desk.old) name.now)) (left_in text (given (D.reads desk.new) name.now)) into.new.items }
    ensures too_long { (text : List ℕ) → MayHold (D.reads desk.new) name.now text → IsErrOf result ReadError.TooLong
        → PassesLimit (left_in text (given (D.reads desk.old) name.now)) limit into.new.items × (length into.new.items ≡ limit) }
    ensures memory { (text : List ℕ) → MayHold (D.reads desk.new) name.now text → IsErrOf result ReadError.Memory
        → ReadsFront (left_in text (given (D.reads desk.old) name.now)) into.new.items }

    // Past the limit at most one piece is read.
    ensures near { (text : List ℕ) → MayHold (D.reads desk.new) name.now text → TakesAtMost (left_in text (given (D.reads desk.old) name.now)) (left_in text (given (D.reads desk.new) name.now)) (limit + PIECE_BYTES) }

    // However else it ends, no read failed.
    ensures calm { UnlessFault result ((other : List ℕ) → D.faults desk.new other ≡ D.faults desk.old other) }

    // The other inputs keep what they had, and no count falls.
    ensures others { (other : List ℕ) → other ≢ name.now → StaysUnread (D.reads desk.old) (D.reads desk.new) other }
    ensures counts { (other : List ℕ) → D.faults desk.old other ≤ D.faults desk.new other }
{
    let mut piece = [0; BUFFER_BYTES];
    'pieces: loop {
        let count = read_piece(desk, name, &mut piece)?;
        if count == 0 {
            return Ok(());
        }
        append(into, &piece[..count], limit)?;
    }
}

/// Appends the bytes, but none past the limit.
fn append(into: &mut Vec<u8>, bytes: &[u8], limit: u64) -> Result<(), ReadError>
    requires { length into.old.items ≤ limit }
    ensures ok { OnOk result (into.new.items ≡ into.old.items ++ bytes.now) }
    ensures within { length into.new.items ≤ limit }
    ensures no_fault { IsErrOf result ReadError.Fault → ⊥ }
    ensures too_long { IsErrOf result ReadError.TooLong
        → (limit < length (into.old.items ++ bytes.now)) × (into.new.items ≡ take limit (into.old.items ++ bytes.now)) }
    ensures memory { IsErrOf result ReadError.Memory → into.new.items ≡ into.old.items }
{
    let room = limit - into.len() as u64;
    if bytes.len() as u64 > room {
        into.extend_from_slice(&bytes[..room as usize])?;
        return Err(ReadError::TooLong);
    }
    into.extend_from_slice(bytes)?;
    Ok(())
}

/// Reads once into a piece with room.
pub fn read_piece<D: Desk>(desk: &mut D, name: &str, piece: &mut [u8]) -> Result<usize, Failed>
    requires { 0 < length piece.old }
    ensures added { D.reads desk.new ≡ D.reads desk.old ++ reading name.now (outcome_by result piece.new) ∷ [] }
    ensures within { IfOk result (λ n. n ≤ length piece.new) }

    // What that is of what was given.
    ensures gives { Gives (given (D.reads desk.old) name.now) (given (D.reads desk.new) name.now) (ended (D.reads desk.old) name.now) (ended (D.reads desk.new) name.now) result piece.new }
    ensures others { (other : List ℕ) → other ≢ name.now → StaysUnread (D.reads desk.old) (D.reads desk.new) other }

    ensures failed { OnErr result (Rose (D.faults desk.old name.now) (D.faults desk.new name.now)) }
    ensures calm { OnOk result ((other : List ℕ) → D.faults desk.new other ≡ D.faults desk.old other) }
    ensures counts { (other : List ℕ) → D.faults desk.old other ≤ D.faults desk.new other }
{
    desk.read(name, piece)
}
