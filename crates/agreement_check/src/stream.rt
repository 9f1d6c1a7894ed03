//! Checking a proof as it is read.
ghost use Rattle.std.specs.Prelude.{◌≡◌, ◌≢◌, ◌≤◌, ◌<◌, ◌+◌, ◌++◌, ℕ, List, Err, IfOk, IsErrOf, length, take};
ghost use Rattle.razor_limits.specs.Counts.{Rose};
ghost use Rattle.razor_limits.specs.declared.limits.TheConstants.{MOST_CERTIFICATE_BYTES};
ghost use Rattle.razor_base.specs.Headline.Outcomes.{Extends};
ghost use Rattle.razor_base.specs.Headline.Readings.{given};
ghost use Rattle.razor_base.specs.Input.{TakesAtMost};
ghost use Rattle.razor_base.specs.Texts.{MayHold, StaysUnread, left_in};
ghost use Rattle.agreement_check.specs.declared.wrong.Wrong.{Wrong as wrong_line};
ghost use Rattle.agreement_check.specs.Answers.{IsTrueOf};
ghost use Rattle.agreement_check.specs.Streams.{IsTurnOfProof, ReadsTooMuch, ReadsUpTo, ReadsValid, ReadsWrong, UnlessFault};

use crate::laws::valid_proofs_are_true;
use crate::reader::{Reader, Refusal};
use crate::valid::Valid;
use crate::wrong::Wrong;
use field_boxes::RuleList;
use razor_base::limits::MOST_CERTIFICATE_BYTES;
use razor_base::{Desk, Failed, read_piece};
use std::alloc::Global;
use ternary_words::Table;
use thiserror::Error;

/// Why a proof was not found valid.
#[derive(Clone, Copy, Debug, PartialEq, Eq, Error)]
pub enum Stop {
    /// It is wrong.
    #[error(transparent)]
    Wrong(Wrong),
    /// A read failed.
    #[error("a read failed")]
    ReadFault,
    /// It has more than 268,435,456 bytes.
    #[error("the proof is longer than the limit")]
    TooLong,
    /// Memory was refused.
    #[error("memory was refused")]
    Memory,
}

impl From<Failed> for Stop {
    ghost use Rattle.std.specs.Prelude.{◌≡◌};
    ghost use Rattle.agreement_check.specs.declared.stream.Stop.TheVariants.{ReadFault};

    ghost from_gives = { λ _ e. e ≡ ReadFault };

    fn from(_failed: Failed) -> Self {
        Stop::ReadFault
    }
}

impl From<Refusal> for Stop {
    ghost use Rattle.std.specs.Prelude.{◌≡◌};
    ghost use Rattle.agreement_check.specs.Stops.{stop_of};

    ghost from_gives = { λ refusal e. e ≡ stop_of refusal };

    fn from(refusal: Refusal) -> Self {
        match refusal {
            Refusal::Wrong(wrong) => Stop::Wrong(wrong),
            Refusal::Memory => Stop::Memory,
        }
    }
}

/// Checks the proof under the name, of which the first bytes in the buffer, so many, were read before.
///
/// It reads through the buffer, word by word, and keeps no more of the proof than a number for each rule and each entry,
/// and the pairs. The first line that is wrong decides, if its end was read before a fault and within the limit.
pub fn check_proof<D: Desk>(
    alloc: Global,
    list: &RuleList,
    table: &Table,
    desk: &mut D,
    name: &str,
    buffer: &mut [u8],
    read: usize,
) -> Result<Valid, Stop>
    requires room { 0 < length buffer.old }
    requires read { read ≤ length buffer.old }

    // The proof is what was read before and what is left.
    ensures valid { (text : List ℕ) → MayHold (D.reads desk.new) name.now text → IfOk result (λ v. ReadsValid list.now table.now MOST_CERTIFICATE_BYTES
        (take read buffer.old ++ left_in text (given (D.reads desk.old) name.now)) (left_in text (given (D.reads desk.new) name.now)) v) }
    ensures wrong { (text : List ℕ) → MayHold (D.reads desk.new) name.now text → (w : wrong_line) → result ≡ Err (Stop.Wrong w) →
        ReadsWrong list.now table.now MOST_CERTIFICATE_BYTES (take read buffer.old ++ left_in text (given (D.reads desk.old) name.now)) w }
    ensures too_long { (text : List ℕ) → MayHold (D.reads desk.new) name.now text → IsErrOf result Stop.TooLong →
        ReadsTooMuch list.now table.now MOST_CERTIFICATE_BYTES (take read buffer.old ++ left_in text (given (D.reads desk.old) name.now)) }
    ensures fault { (text : List ℕ) → MayHold (D.reads desk.new) name.now text → IsErrOf result Stop.ReadFault → Rose (D.faults desk.old name.now) (D.faults desk.new name.now)
        × ReadsUpTo list.now table.now MOST_CERTIFICATE_BYTES (take read buffer.old ++ left_in text (given (D.reads desk.old) name.now)) (left_in text (given (D.reads desk.new) name.now)) }

    // What it shows is true, whoever wrote it.
    ensures is_true { IfOk result (λ v. IsTrueOf list.now table.now v.shown) }

    // The reads that it adds, all of this name; but for a fault none of them failed, and past the limit at most what the buffer holds is read.
    ensures turn { Extends (D.reads desk.old) (D.reads desk.new) (λ added. IsTurnOfProof name.now result added) }
    ensures calm { UnlessFault result ((other : List ℕ) → D.faults desk.new other ≡ D.faults desk.old other) }
    ensures near { (text : List ℕ) → MayHold (D.reads desk.new) name.now text → TakesAtMost (left_in text (given (D.reads desk.old) name.now)) (left_in text (given (D.reads desk.new) name.now)) (MOST_CERTIFICATE_BYTES + length buffer.old) }

    // The other inputs keep what they had, and no count falls.
    ensures others { (other : List ℕ) → other ≢ name.now → StaysUnread (D.reads desk.old) (D.reads desk.new) other }
    ensures counts { (other : List ℕ) → D.faults desk.old other ≤ D.faults desk.new other }
{
    let mut reader = Reader::new(alloc, list, table);
    let mut room = MOST_CERTIFICATE_BYTES;
    let mut count = read;
    'pieces: loop {
        if count as u64 > room {
            reader.take(&buffer[..room as usize])?;
            return Err(Stop::TooLong);
        }
        reader.take(&buffer[..count])?;
        room -= count as u64;
        count = read_piece(desk, name, buffer)?;
        if count == 0 {
            let valid = reader.end()?;
            valid_proofs_are_true();
            return Ok(valid);
        }
    }
}
