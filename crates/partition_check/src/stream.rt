//! Checking a certificate as it is read.
ghost use Rattle.std.specs.Prelude.{◌≡◌, ◌≢◌, ◌≤◌, ◌<◌, ◌+◌, ◌-◌, ◌++◌, ℕ, List, true, Err, IfOk, OnOk, IsErrOf, MatchResult, OnErr, length, take, drop, min, [], ◌∷◌};
ghost use Rattle.razor_limits.specs.Counts.{Rose};
ghost use Rattle.razor_base.specs.Headline.Readings.{ended, given, reading};
ghost use Rattle.razor_base.specs.Headline.Outcomes.{outcome_by, Extends};
ghost use Rattle.razor_base.specs.Texts.{MayHold, StaysUnread, left_in};
ghost use Rattle.partition_check.specs.StreamTurn.{IsTurnOfStream};
ghost use Rattle.razor_base.specs.Input.{TakesAtMost};
ghost use Rattle.razor_limits.specs.declared.limits.TheConstants.{MOST_CERTIFICATE_BYTES};
ghost use Rattle.partition_check.specs.declared.row.Wrong.{Wrong as wrong_row};
ghost use Rattle.partition_check.specs.Agreement.{Agree, HaveNames};
ghost use Rattle.partition_check.specs.Streams.{ReadsUpTo, ReadsTooMuch, ReadsValid, ReadsWrong, UnlessFault};

use crate::checker::Checker;
use crate::reader::Reader;
use crate::row::Wrong;
use razor_base::limits::MOST_CERTIFICATE_BYTES;
use razor_base::{Desk, Failed, read_piece};
use thiserror::Error;

/// As many bytes of an unfinished line as are kept: more than any line has that isn't wrong.
const KEPT: usize = 129;

/// Why a certificate was not found valid.
#[derive(Clone, Copy, Debug, PartialEq, Eq, Error)]
pub enum Stop {
    /// It is wrong.
    #[error(transparent)]
    Wrong(Wrong),
    /// A read failed.
    #[error("a read failed")]
    ReadFault,
    /// It has more than 268,435,456 bytes.
    #[error("the certificate is longer than the limit")]
    TooLong,
}

impl From<Failed> for Stop {
    ghost use Rattle.std.specs.Prelude.{◌≡◌};
    ghost use Rattle.partition_check.specs.declared.stream.Stop.TheVariants.{ReadFault};

    ghost from_gives = { λ _ e. e ≡ ReadFault };

    fn from(_failed: Failed) -> Self {
        Stop::ReadFault
    }
}

impl From<Wrong> for Stop {
    ghost use Rattle.std.specs.Prelude.{◌≡◌};
    ghost use Rattle.partition_check.specs.declared.stream.Stop.TheVariants.{Wrong as wrong_stop};

    ghost from_gives = { λ w e. e ≡ wrong_stop w };

    fn from(wrong: Wrong) -> Self {
        Stop::Wrong(wrong)
    }
}

/// Reads the next bytes into the buffer, behind so many that are kept.
fn read_behind<D: Desk>(
    desk: &mut D,
    name: &str,
    buffer: &mut [u8],
    kept: usize,
) -> Result<usize, Failed>
    requires { kept < length buffer.old }
    ensures added { D.reads desk.new ≡ D.reads desk.old ++ reading name.now (outcome_by result (drop kept buffer.new)) ∷ [] }
    ensures bytes { IfOk result (λ n. (given (D.reads desk.new) name.now ≡ given (D.reads desk.old) name.now ++ take n (drop kept buffer.new))
        × (n ≡ 0 → ended (D.reads desk.new) name.now ≡ true) × (kept + n ≤ length buffer.new)) }
    ensures failed { OnErr result (Rose (D.faults desk.old name.now) (D.faults desk.new name.now)
        × (given (D.reads desk.new) name.now ≡ given (D.reads desk.old) name.now)) }
    ensures calm { OnOk result ((other : List ℕ) → D.faults desk.new other ≡ D.faults desk.old other) }
    ensures kept { take kept buffer.new ≡ take kept buffer.old }
    ensures others { (other : List ℕ) → other ≢ name.now → StaysUnread (D.reads desk.old) (D.reads desk.new) other }
    ensures counts { (other : List ℕ) → D.faults desk.old other ≤ D.faults desk.new other }
{
    read_piece(desk, name, &mut buffer[kept..])
}

/// Moves what lies from `start` to `end` to the front of the buffer, at most 129 bytes of it, and gives
/// how many.
fn keep(buffer: &mut [u8], start: usize, end: usize) -> usize
    requires start { start ≤ end }
    requires end { end ≤ length buffer.old }
    ensures few { result ≤ 129 }
    ensures kept { take result buffer.new ≡ take 129 (drop start (take end buffer.old)) }
{
    let count = (end - start).min(KEPT);
    buffer.copy_within(start..start + count, 0);
    count
}

/// Checks the certificate under the name, of which the first bytes in the buffer, so many, were read before.
///
/// It reads line by line through the buffer, which has at least 256 bytes, for a checker that has accepted no row. `Ok`
/// gives the number of rows. The first line that is wrong decides, if its end was read before a fault and within the
/// limit; the call takes no memory.
pub fn check_stream<D: Desk>(
    checker: Checker<'_>,
    desk: &mut D,
    name: &str,
    buffer: &mut [u8],
    read: usize,
) -> Result<u64, Stop>
    requires buffer { 256 ≤ length buffer.old }
    requires rows { checker.accepted ≡ 0 }
    requires read { read ≤ length buffer.old }
    ensures turn { Extends (D.reads desk.old) (D.reads desk.new) (λ added. IsTurnOfStream name.now result added) }

    // The certificate is what was read before and what is left.
    ensures valid { (text : List ℕ) → MayHold (D.reads desk.new) name.now text → IfOk result (λ rows. ReadsValid checker.entry MOST_CERTIFICATE_BYTES
        (take read buffer.old ++ left_in text (given (D.reads desk.old) name.now)) (left_in text (given (D.reads desk.new) name.now)) rows) }
    ensures agree { OnOk result (Agree checker.entry.list checker.entry.table) }
    ensures wrong { (text : List ℕ) → MayHold (D.reads desk.new) name.now text → (w : wrong_row) → result ≡ Err (Stop.Wrong w) →
        ReadsWrong checker.entry MOST_CERTIFICATE_BYTES (take read buffer.old ++ left_in text (given (D.reads desk.old) name.now)) w }
    ensures named { (w : wrong_row) → result ≡ Err (Stop.Wrong w) → HaveNames checker.entry.list checker.entry.table w.why }
    ensures too_long { (text : List ℕ) → MayHold (D.reads desk.new) name.now text → IsErrOf result Stop.TooLong →
        ReadsTooMuch checker.entry MOST_CERTIFICATE_BYTES (take read buffer.old ++ left_in text (given (D.reads desk.old) name.now)) }
    ensures fault { (text : List ℕ) → MayHold (D.reads desk.new) name.now text → IsErrOf result Stop.ReadFault → Rose (D.faults desk.old name.now) (D.faults desk.new name.now)
        × ReadsUpTo checker.entry MOST_CERTIFICATE_BYTES (take read buffer.old ++ left_in text (given (D.reads desk.old) name.now)) (left_in text (given (D.reads desk.new) name.now)) }

    // However else it ends, no read failed.
    ensures calm { UnlessFault result ((other : List ℕ) → D.faults desk.new other ≡ D.faults desk.old other) }

    // Past the limit at most what the buffer holds is read.
    ensures near { (text : List ℕ) → MayHold (D.reads desk.new) name.now text → TakesAtMost (left_in text (given (D.reads desk.old) name.now)) (left_in text (given (D.reads desk.new) name.now)) (MOST_CERTIFICATE_BYTES + length buffer.old) }

    // The other inputs keep what they had, and no count falls.
    ensures others { (other : List ℕ) → other ≢ name.now → StaysUnread (D.reads desk.old) (D.reads desk.new) other }
    ensures counts { (other : List ℕ) → D.faults desk.old other ≤ D.faults desk.new other }
{
    let mut reader = Reader {
        checker,
        ended: None,
    };
    let mut kept = 0;
    let mut room = MOST_CERTIFICATE_BYTES;
    let mut count = read;
    'pieces: loop {
        if count as u64 > room {
            let _rest = reader.take_lines(&buffer[..kept + room as usize])?;
            return Err(Stop::TooLong);
        }
        let end = kept + count;
        let start = reader.take_lines(&buffer[..end])?;
        room -= count as u64;
        kept = keep(buffer, start, end);
        count = read_behind(desk, name, buffer, kept)?;
        if count == 0 {
            let rows = reader.end(&buffer[..kept])?;
            return Ok(rows);
        }
    }
}
