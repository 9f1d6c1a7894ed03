//! A record of what a writer took.
ghost use Rattle.std.specs.Prelude.{◌≡◌, ◌≤◌, [], ◌∷◌, ◌++◌, length, IfOk, MatchResult};
ghost use Rattle.std.specs.Io.KnownBytes.{WriteAppends};
ghost use Rattle.razor_base.specs.Headline.Outcomes.{Failure};
ghost use Rattle.razor_base.specs.Recorders.{recorded_writes, with_write};

use crate::write_history::WriteHistory;
use std::io;
use std::io::Write;
use std::marker::PhantomData;

/// The writes to writers of one type. Nothing but a write to such a writer notes bytes here.
#[derive(Drop)]
pub struct WriteRecorder<W> {
    history: WriteHistory,
    of: PhantomData<W>,
}

impl<W> WriteRecorder<W> {
    /// Nothing was written.
    pub(crate) fn new() -> Self
        ensures { recorded_writes result ≡ [] }
    {
        WriteRecorder {
            history: WriteHistory::new(),
            of: PhantomData,
        }
    }
}

impl<W: Write> WriteRecorder<W> {
    /// Notes that a write of the piece failed, and isn't tried again.
    pub(crate) fn fail(&mut self, piece: &[u8])
        ensures { recorded_writes self.new ≡ recorded_writes self.old ++ Failure ∷ [] }
    {
        self.history.fail(piece);
    }

    /// Writes once, and notes what the writer took. A write that took nothing isn't noted here, since it may
    /// be tried again.
    pub(crate) fn write(&mut self, writer: &mut W, piece: &[u8]) -> io::Result<usize>
        ensures bytes { WriteAppends (W.contents writer.old) (W.contents writer.new) result piece.now }
        ensures within { IfOk result (λ n. n ≤ length piece.now) }
        ensures noted { MatchResult result (λ n. recorded_writes self.new ≡ with_write (recorded_writes self.old) n piece.now) (λ _. recorded_writes self.new ≡ recorded_writes self.old) }
    {
        let count = writer.write(piece)?;
        if count > 0 {
            self.history.note(&piece[..count]);
        }
        Ok(count)
    }
}
