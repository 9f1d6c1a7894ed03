//! Running a trace over a memory: its answers are written while it is read.
ghost use Rattle.std.specs.Prelude.{◌≡◌, ◌≢◌, ◌≤◌, ◌+◌, ℕ, List, [], IsErrOf};
ghost use Rattle.razor_limits.specs.Counts.{Rose};
ghost use Rattle.razor_base.specs.Headline.Readings.{given};
ghost use Rattle.razor_base.specs.Texts.{MayHold, StaysUnread, left_in};
ghost use Rattle.trace_run.specs.Turn.{IsTurnOfTrace};
ghost use Rattle.razor_base.specs.Input.{TakesAtMost};
ghost use Rattle.razor_base.specs.Output.{Appends, AppendsFront};
ghost use Rattle.razor_base.specs.Headline.Outcomes.{Extends};
ghost use Rattle.razor_limits.specs.declared.limits.TheConstants.{MOST_TRACE_BYTES, PIECE_BYTES};
ghost use Rattle.trace_run.specs.Answers.{HaveNames, answers_text};
ghost use Rattle.trace_run.specs.Outcome.{Begun, Outcome, Written};
ghost use Rattle.trace_run.specs.Pace.{IsPaced};
ghost use Rattle.trace_run.specs.Progress.{AreTried, OnWriteFault, UnlessFault, UnlessWriteFault, is_lost};
ghost use Rattle.trace_run.specs.declared.error.TraceError.TheVariants.{ReadFault};

use crate::error::TraceError;
use crate::progress::Progress;
use field_boxes::Decisions;
use razor_base::limits::{BUFFER_BYTES, MOST_TRACE_BYTES};
use razor_base::{Desk, Pending, Sink, read_piece};
use std::alloc::Global;
use tcam_sim::Device;

/// Puts the answers to the headers of a trace, and answers how many there are.
#[inline(never)]
fn put_answers<V: Device, D: Desk, K: Sink>(
    alloc: Global,
    device: &V,
    names: &Decisions,
    desk: &mut D,
    name: &str,
    pending: &mut Pending,
    out: &mut K,
) -> Result<u64, TraceError>
    requires names { HaveNames names.now (V.held device.now) }
    requires none { pending.old ≡ [] }
    ensures turn { Extends (D.reads desk.old) (D.reads desk.new) (λ added. IsTurnOfTrace name.now result added) }
    ensures tries { Extends (K.written out.old) (K.written out.new) (AreTried result) }
    ensures outcome { (text : List ℕ) → MayHold (D.reads desk.new) name.now text → Outcome (Written K.written out.old out.new pending.old pending.new) (Begun K.written out.old out.new pending.old)
        (answers_text names.now (V.held device.now)) MOST_TRACE_BYTES (left_in text (given (D.reads desk.old) name.now)) (left_in text (given (D.reads desk.new) name.now)) result }
    ensures write_fault { OnWriteFault result (Rose (K.faults out.old) (K.faults out.new)) }
    ensures calm { UnlessWriteFault result (K.faults out.new ≡ K.faults out.old) }
    ensures written { K.faults out.old ≤ K.faults out.new }
    ensures read_fault { IsErrOf result ReadFault → Rose (D.faults desk.old name.now) (D.faults desk.new name.now) }
    ensures none_failed { UnlessFault result ((other : List ℕ) → D.faults desk.new other ≡ D.faults desk.old other) }
    ensures near { (text : List ℕ) → MayHold (D.reads desk.new) name.now text → TakesAtMost (left_in text (given (D.reads desk.old) name.now)) (left_in text (given (D.reads desk.new) name.now)) (MOST_TRACE_BYTES + PIECE_BYTES) }
    ensures paced { (text : List ℕ) → MayHold (D.reads desk.new) name.now text → IsPaced (answers_text names.now (V.held device.now)) (K.written out.old) (K.written out.new) (left_in text (given (D.reads desk.old) name.now)) (left_in text (given (D.reads desk.new) name.now)) }
    ensures others { (other : List ℕ) → other ≢ name.now → StaysUnread (D.reads desk.old) (D.reads desk.new) other }
    ensures counts { (other : List ℕ) → D.faults desk.old other ≤ D.faults desk.new other }
{
    let mut progress = Progress::new(alloc);
    let mut piece = [0; BUFFER_BYTES];
    let mut room = MOST_TRACE_BYTES as usize;
    'pieces: loop {
        let Ok(count) = read_piece(desk, name, &mut piece) else {
            return Err(TraceError::ReadFault);
        };
        if count == 0 {
            progress.take_kept(device, names, pending, out)?;
            return Ok(progress.headers);
        }
        let taken = count.min(room);
        progress.take_piece(device, names, &piece[..taken], pending, out)?;
        if count > taken {
            return Err(TraceError::TooLong);
        }
        pending.flush(out)?;
        room -= taken;
    }
}

/// Whether the answers that wait can't be written any more.
fn is_lost(ended: &Result<u64, TraceError>) -> bool
    ensures { result ≡ is_lost ended.now }
{
    match ended {
        Ok(_) => false,
        Err(error) => match error {
            TraceError::WriteFault | TraceError::Memory => true,
            TraceError::BadLine { .. } | TraceError::ReadFault | TraceError::TooLong => false,
        },
    }
}

/// Writes the answer to each header of the trace, and answers how many headers there are.
///
/// The answer is the name of the decision in the least slot that matches, or `miss`. The trace is taken
/// piece by piece, the answers of a piece are written before the next one is read, and only the line that
/// isn't finished is kept. A line whose end wasn't read, because a
/// read failed or the limit of 67,108,864 bytes came first, isn't taken; what was answered before a bad
/// line, a failed read or the limit is written.
#[inline(never)]
pub fn run<V: Device, D: Desk, K: Sink>(
    alloc: Global,
    device: &V,
    names: &Decisions,
    desk: &mut D,
    name: &str,
    out: &mut K,
) -> Result<u64, TraceError>
    requires { HaveNames names.now (V.held device.now) }
    ensures turn { Extends (D.reads desk.old) (D.reads desk.new) (λ added. IsTurnOfTrace name.now result added) }
    ensures tries { Extends (K.written out.old) (K.written out.new) (AreTried result) }
    ensures outcome { (text : List ℕ) → MayHold (D.reads desk.new) name.now text → Outcome (Appends (K.written out.old) (K.written out.new)) (AppendsFront (K.written out.old) (K.written out.new))
        (answers_text names.now (V.held device.now)) MOST_TRACE_BYTES (left_in text (given (D.reads desk.old) name.now)) (left_in text (given (D.reads desk.new) name.now)) result }

    // A fault comes only where its count rose, and no count falls.
    ensures read_fault { IsErrOf result ReadFault → Rose (D.faults desk.old name.now) (D.faults desk.new name.now) }
    ensures write_fault { OnWriteFault result (Rose (K.faults out.old) (K.faults out.new)) }

    // However else it ends, also out of memory, no write failed, and no read.
    ensures calm { UnlessWriteFault result (K.faults out.new ≡ K.faults out.old) }
    ensures none_failed { UnlessFault result ((other : List ℕ) → D.faults desk.new other ≡ D.faults desk.old other) }

    // Past the limit at most one piece is read, and past what was answered, however it ends.
    ensures near { (text : List ℕ) → MayHold (D.reads desk.new) name.now text → TakesAtMost (left_in text (given (D.reads desk.old) name.now)) (left_in text (given (D.reads desk.new) name.now)) (MOST_TRACE_BYTES + PIECE_BYTES) }
    ensures paced { (text : List ℕ) → MayHold (D.reads desk.new) name.now text → IsPaced (answers_text names.now (V.held device.now)) (K.written out.old) (K.written out.new) (left_in text (given (D.reads desk.old) name.now)) (left_in text (given (D.reads desk.new) name.now)) }
    ensures counts { (other : List ℕ) → D.faults desk.old other ≤ D.faults desk.new other }
    ensures written { K.faults out.old ≤ K.faults out.new }

    // The other inputs keep what they had.
    ensures others { (other : List ℕ) → other ≢ name.now → StaysUnread (D.reads desk.old) (D.reads desk.new) other }
{
    let mut pending = Pending::new();
    let ended = put_answers(alloc, device, names, desk, name, &mut pending, out);
    if is_lost(&ended) {
        return ended;
    }
    pending.flush(out)?;
    ended
}
