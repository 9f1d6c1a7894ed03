//! The streams of the system: its files, its standard input, and what the runtime prints to.
ghost use Rattle.std.specs.Prelude.{◌≡◌, ◌↔◌};
ghost use Rattle.std.specs.IoError.{error_kind};
ghost use Rattle.razor_base.specs.declared.stream.Cut.TheVariants.{Interrupted};

use crate::opener::Opener;
use crate::read_recorder::ReadRecorder;
use crate::stream::{Cut, Drain, Source};
use crate::write_recorder::WriteRecorder;
use razor_limits::Failed;
use std::io::{ErrorKind, Read, Write};
use std::rt::Files;
use std::{fs, io};

/// Opens the files of the system, and standard input under the name `-`.
#[derive(Drop)]
pub(crate) struct HostFiles<R> {
    rt: R,
}

/// A file, or standard input.
#[derive(Drop)]
pub(crate) enum HostSource<F, I> {
    File(F),
    Input(I),
}

/// A writer, such as what the runtime prints to, and a record of what it took.
#[derive(Drop)]
pub(crate) struct HostDrain<W> {
    writer: W,
    recorder: WriteRecorder<W>,
}

/// What the runtime prints to, as a writer.
#[derive(Drop)]
pub(crate) struct Printer<P> {
    to: P,
}

impl<R> HostFiles<R> {
    pub(crate) fn new(rt: R) -> Self {
        HostFiles { rt }
    }
}

impl<W> HostDrain<W> {
    ghost use Rattle.std.specs.Prelude.{◌≡◌, []};
    ghost use Rattle.razor_base.specs.HostStream.{drain_writes};

    /// Nothing was written yet.
    pub(crate) fn new(writer: W) -> Self
        ensures { drain_writes result ≡ [] }
    {
        HostDrain {
            writer,
            recorder: WriteRecorder::new(),
        }
    }
}

impl<P> Printer<P> {
    pub(crate) fn new(to: P) -> Self {
        Printer { to }
    }
}

impl<P: Print> Write for Printer<P> {
    fn write(&mut self, piece: &[u8]) -> io::Result<usize> {
        self.to.write_some(piece)
    }

    fn flush(&mut self) -> io::Result<()> {
        Ok(())
    }
}

impl<R: Files + Input> Opener for HostFiles<R> {
    ghost use Rattle.std.specs.Prelude.{ℕ, List, None, IfOk, ◌≡◌, ◌↔◌, codes};
    ghost use Rattle.std.specs.Io.KnownBytes.{Keeps};
    ghost use Rattle.razor_base.specs.HostStream.{IsInput};

    type Stream = HostSource<R::File, R::Reader>;

    ghost contents = { λ _ _. None };

    ghost opened = { λ _. None };

    fn open(&mut self, name: &str) -> Result<HostSource<R::File, R::Reader>, Failed>
        ensures input { IfOk result (λ stream. IsInput stream ↔ (name.now ≡ codes "-")) }
    {
        if name == "-" {
            return Ok(HostSource::Input(self.rt.reader()));
        }
        match fs::open(&self.rt, name) {
            Ok(file) => Ok(HostSource::File(file)),
            Err(_) => Err(Failed),
        }
    }
}

impl<F: Read, I: Read> Source for HostSource<F, I> {
    ghost use Rattle.std.specs.Prelude.{None};
    ghost use Rattle.razor_base.specs.HostStream.{source_left};

    type File = F;

    type Input = I;

    ghost left = { source_left F.remaining I.remaining };

    ghost calls = { λ _. None };

    fn read(
        &mut self,
        recorder: &mut ReadRecorder<F, I>,
        name: &str,
        piece: &mut [u8],
    ) -> Result<usize, Cut> {
        let outcome = match self {
            HostSource::File(file) => recorder.read_file(file, name, piece),
            HostSource::Input(input) => recorder.read_input(input, name, piece),
        };
        outcome.map_err(cut)
    }
}

impl<W: Write> Drain for HostDrain<W> {
    ghost use Rattle.std.specs.Prelude.{None};
    ghost use Rattle.razor_base.specs.HostStream.{drain_writes};

    ghost taken = { drain_writes };

    ghost calls = { λ _. None };

    fn write(&mut self, piece: &[u8]) -> Result<usize, Cut> {
        self.recorder.write(&mut self.writer, piece).map_err(cut)
    }

    fn fail(&mut self, piece: &[u8]) {
        self.recorder.fail(piece);
    }
}

/// Whether a signal interrupted the call that answered this error.
fn cut(error: io::Error) -> Cut
    ensures { (result ≡ Interrupted) ↔ (error_kind error ≡ ErrorKind.Interrupted) }
{
    if error.kind() == ErrorKind::Interrupted {
        Cut::Interrupted
    } else {
        Cut::Refused
    }
}
