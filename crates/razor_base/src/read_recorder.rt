//! A record of what streams gave.
ghost use Rattle.std.specs.Prelude.{◌≡◌, ◌≤◌, ◌<◌, [], ◌∷◌, ◌++◌, length, take, IfOk, MatchResult};
ghost use Rattle.std.specs.Io.KnownBytes.{ReadConsumes};
ghost use Rattle.razor_base.specs.Headline.Outcomes.{Failure, outcome_of};
ghost use Rattle.razor_base.specs.Headline.Readings.{reading};
ghost use Rattle.razor_base.specs.Recorders.{recorded_reads};

use crate::read_history::ReadHistory;
use std::io;
use std::io::Read;
use std::marker::PhantomData;

/// The reads of files of one type and of inputs of another. Nothing but a read of such a file or input notes bytes or an end here.
#[derive(Drop)]
pub struct ReadRecorder<F, I> {
    history: ReadHistory,
    of: PhantomData<(F, I)>,
}

impl<F: Read, I: Read> ReadRecorder<F, I> {
    /// Nothing was read.
    pub(crate) fn new() -> Self
        ensures { recorded_reads result ≡ [] }
    {
        ReadRecorder {
            history: ReadHistory::new(),
            of: PhantomData,
        }
    }

    /// Notes that a read failed under the name, and isn't tried again.
    pub(crate) fn fail(&mut self, name: &str)
        ensures { recorded_reads self.new ≡ recorded_reads self.old ++ reading name.now Failure ∷ [] }
    {
        self.history.fail(name.as_bytes());
    }

    /// Reads once from a file, and notes under the name what that put into the piece. A read that fails isn't
    /// noted here, since it may be tried again.
    pub(crate) fn read_file(
        &mut self,
        file: &mut F,
        name: &str,
        piece: &mut [u8],
    ) -> io::Result<usize>
        requires room { 0 < length piece.old }
        ensures bytes { ReadConsumes (F.remaining file.old) (F.remaining file.new) result piece.new }
        ensures within { IfOk result (λ n. n ≤ length piece.new) }
        ensures noted { MatchResult result (λ n. recorded_reads self.new ≡ recorded_reads self.old ++ reading name.now (outcome_of (take n piece.new)) ∷ []) (λ _. recorded_reads self.new ≡ recorded_reads self.old) }
    {
        read_noted(&mut self.history, file, name, piece)
    }

    /// Reads once from an input, likewise.
    pub(crate) fn read_input(
        &mut self,
        input: &mut I,
        name: &str,
        piece: &mut [u8],
    ) -> io::Result<usize>
        requires room { 0 < length piece.old }
        ensures bytes { ReadConsumes (I.remaining input.old) (I.remaining input.new) result piece.new }
        ensures within { IfOk result (λ n. n ≤ length piece.new) }
        ensures noted { MatchResult result (λ n. recorded_reads self.new ≡ recorded_reads self.old ++ reading name.now (outcome_of (take n piece.new)) ∷ []) (λ _. recorded_reads self.new ≡ recorded_reads self.old) }
    {
        read_noted(&mut self.history, input, name, piece)
    }
}

/// Reads once, and notes under the name what the reader put into the piece.
fn read_noted<S: Read>(
    history: &mut ReadHistory,
    reader: &mut S,
    name: &str,
    piece: &mut [u8],
) -> io::Result<usize>
    requires room { 0 < length piece.old }
    ensures bytes { ReadConsumes (S.remaining reader.old) (S.remaining reader.new) result piece.new }
    ensures within { IfOk result (λ n. n ≤ length piece.new) }
    ensures noted { MatchResult result (λ n. history.new.reads ≡ history.old.reads ++ reading name.now (outcome_of (take n piece.new)) ∷ []) (λ _. history.new.reads ≡ history.old.reads) }
{
    let count = reader.read(piece)?;
    history.note(name.as_bytes(), &piece[..count]);
    Ok(count)
}
