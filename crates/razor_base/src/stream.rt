//! Streams of the system, whose calls a signal may interrupt.
ghost use Rattle.std.specs.Prelude.{◌≡◌, ◌≤◌, ◌<◌, [], ◌∷◌, ◌++◌, length, take, IfOk, MatchResult};
ghost use Rattle.std.specs.Io.KnownBytes.{ReadConsumes};
ghost use Rattle.razor_base.specs.Headline.Outcomes.{Failure, outcome_of};
ghost use Rattle.razor_base.specs.Headline.Readings.{reading};
ghost use Rattle.razor_base.specs.Recorders.{recorded_reads, with_write};
ghost use Rattle.razor_base.specs.Streams.{IsTried};

use crate::read_recorder::ReadRecorder;
use razor_limits::Failed;
use std::io::Read;

/// How often a call is tried before it counts as failed, if a signal interrupts it each time.
const TRIES: usize = 65;

/// Why a call on a stream moved no bytes.
#[derive(Clone, Copy, Debug, PartialEq, Eq)]
pub(crate) enum Cut {
    /// A signal interrupted it: it may be tried again.
    Interrupted,
    /// It failed.
    Refused,
}

/// What bytes come from, a call at a time.
pub(crate) trait Source {
    ghost use Rattle.std.specs.Prelude.{ℕ, List, Option};
    ghost use Rattle.razor_base.specs.Streams.{Calls, IsCall};

    /// The types of what it reads from.
    type File: Read;

    type Input: Read;

    /// The bytes that are left, where the stream tells them.
    ghost left: { Self → Option (List ℕ) };

    /// The calls that moved no bytes, where the stream tells them.
    ghost calls: { Self → Option Calls };

    /// Moves the next bytes into the front of the piece, notes them under the name, and answers how many.
    fn read(
        &mut self,
        recorder: &mut ReadRecorder<Self::File, Self::Input>,
        name: &str,
        piece: &mut [u8],
    ) -> Result<usize, Cut>
        requires room { 0 < length piece.old }
        ensures noted { MatchResult result (λ n. recorded_reads recorder.new ≡ recorded_reads recorder.old ++ reading name.now (outcome_of (take n piece.new)) ∷ []) (λ _. recorded_reads recorder.new ≡ recorded_reads recorder.old) }
        ensures bytes { ReadConsumes (left self.old) (left self.new) result piece.new }
        ensures within { IfOk result (λ n. n ≤ length piece.new) }
        ensures counted { IsCall (calls self.old) (calls self.new) result };
}

/// What bytes go to, a call at a time.
pub(crate) trait Drain {
    ghost use Rattle.std.specs.Prelude.{ℕ, List, Option};
    ghost use Rattle.razor_base.specs.Headline.Outcomes.{CallOutcome};
    ghost use Rattle.razor_base.specs.Streams.{Calls, IsCall};

    /// The writes so far.
    ghost taken: { Self → List CallOutcome };

    /// The calls that moved no bytes, where the stream tells them.
    ghost calls: { Self → Option Calls };

    /// Takes the first bytes of the piece, and answers how many.
    fn write(&mut self, piece: &[u8]) -> Result<usize, Cut>
        ensures noted { MatchResult result (λ n. taken self.new ≡ with_write (taken self.old) n piece.now) (λ _. taken self.new ≡ taken self.old) }
        ensures within { IfOk result (λ n. n ≤ length piece.now) }
        ensures counted { IsCall (calls self.old) (calls self.new) result };

    /// Notes that a write of the piece failed, and isn't tried again.
    fn fail(&mut self, piece: &[u8])
        ensures noted { taken self.new ≡ taken self.old ++ Failure ∷ [] }
        ensures idle { calls self.new ≡ calls self.old };
}

/// Reads some bytes, again where a signal interrupted the call.
pub(crate) fn read_some<S: Source>(
    source: &mut S,
    recorder: &mut ReadRecorder<S::File, S::Input>,
    name: &str,
    piece: &mut [u8],
) -> Result<usize, Failed>
    requires room { 0 < length piece.old }
    ensures noted { MatchResult result (λ n. recorded_reads recorder.new ≡ recorded_reads recorder.old ++ reading name.now (outcome_of (take n piece.new)) ∷ []) (λ _. recorded_reads recorder.new ≡ recorded_reads recorder.old) }
    ensures length { length piece.new ≡ length piece.old }
    ensures bytes { ReadConsumes (S.left source.old) (S.left source.new) result piece.new }
    ensures within { IfOk result (λ n. n ≤ length piece.new) }
    ensures tried { IsTried 65 (S.calls source.old) (S.calls source.new) result }
{
    for _ in 0..TRIES {
        match source.read(recorder, name, piece) {
            Ok(count) => return Ok(count),
            Err(Cut::Refused) => return Err(Failed),
            Err(Cut::Interrupted) => {}
        }
    }
    Err(Failed)
}

/// Writes some of the bytes, again where a signal interrupted the call.
pub(crate) fn write_some<D: Drain>(drain: &mut D, piece: &[u8]) -> Result<usize, Failed>
    ensures noted { MatchResult result (λ n. D.taken drain.new ≡ with_write (D.taken drain.old) n piece.now) (λ _. D.taken drain.new ≡ D.taken drain.old) }
    ensures within { IfOk result (λ n. n ≤ length piece.now) }
    ensures tried { IsTried 65 (D.calls drain.old) (D.calls drain.new) result }
{
    for _ in 0..TRIES {
        match drain.write(piece) {
            Ok(taken) => return Ok(taken),
            Err(Cut::Refused) => return Err(Failed),
            Err(Cut::Interrupted) => {}
        }
    }
    Err(Failed)
}
