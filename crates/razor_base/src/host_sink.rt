//! Standard output and standard error.
use crate::host_stream::{HostDrain, Printer};
use crate::sink::Sink;
use crate::stream_sink::StreamSink;
use razor_limits::Failed;
use std::io::Stderr;

/// Standard output or standard error.
///
/// What a write takes has reached the system when it answers.
#[derive(Drop)]
pub struct HostSink<P> {
    sink: StreamSink<HostDrain<Printer<P>>>,
}

impl<P: Print> HostSink<P> {
    ghost use Rattle.std.specs.Prelude.{◌≡◌, []};
    ghost use Rattle.razor_base.specs.HostSink.{stream_writes, stream_faults};

    /// What the runtime prints to, its standard output.
    pub fn out(rt: P) -> Self
        ensures calm { stream_faults result ≡ 0 }
        ensures none { stream_writes result ≡ [] }
    {
        HostSink {
            sink: StreamSink::new(HostDrain::new(Printer::new(rt))),
        }
    }
}

impl HostSink<Stderr> {
    ghost use Rattle.std.specs.Prelude.{◌≡◌, []};
    ghost use Rattle.razor_base.specs.HostSink.{stream_writes, stream_faults};

    /// The standard error of the runtime.
    pub fn err(rt: &HostRuntime) -> Self
        ensures calm { stream_faults result ≡ 0 }
        ensures none { stream_writes result ≡ [] }
    {
        HostSink::out(rt.stderr())
    }
}

impl<P: Print> Sink for HostSink<P> {
    ghost use Rattle.std.specs.Prelude.{◌≡◌, ◌≤◌, ◌<◌, length, Ok, Some, IfOk, OnOk, OnErr, is_ok, if◌then◌else◌, [], ◌∷◌, ◌++◌};
    ghost use Rattle.razor_base.specs.Headline.Outcomes.{outcome_by};
    ghost use Rattle.razor_limits.specs.Counts.{counted, Rose};
    ghost use Rattle.razor_base.specs.HostSink.{stream_writes, stream_faults};

    ghost written = { stream_writes };

    ghost faults = { stream_faults };

    fn write(&mut self, piece: &[u8]) -> Result<usize, Failed>
        ensures added { 0 < length piece.now → stream_writes self.new ≡ stream_writes self.old ++ outcome_by result piece.now ∷ [] }
        ensures within { IfOk result (λ n. n ≤ length piece.now) }
        ensures some { IfOk result (λ n. 0 < length piece.now → 0 < n) }
        ensures empty { length piece.now ≡ 0 → (result ≡ Ok 0) × (stream_writes self.new ≡ stream_writes self.old) }
        ensures failed { OnErr result (Rose (stream_faults self.old) (stream_faults self.new)) }
        ensures calm { OnOk result (stream_faults self.new ≡ stream_faults self.old) }
        ensures counts { stream_faults self.old ≤ stream_faults self.new }

        // The count rises by one with a failure, and with nothing else.
        ensures rises { stream_faults self.new
            ≡ (if is_ok result then stream_faults self.old else counted (stream_faults self.old)) }
    {
        self.sink.write(piece)
    }
}
