//! The files of the system as inputs.
use crate::desk::Desk;
use crate::host_stream::{HostFiles, HostSource};
use crate::stream_desk::StreamDesk;
use razor_limits::Failed;
use std::alloc::Global;
use std::rt::Files;

/// The files of the system, and standard input under the name `-`.
///
/// A file is opened at the first read of its name, and stays open until another name is read: a file that
/// is opened anew is read from its start.
#[derive(Drop)]
pub struct HostDesk<R: Files + Input> {
    desk: StreamDesk<HostFiles<R>, HostSource<R::File, R::Reader>>,
}

impl<R: Files + Input + Drop> HostDesk<R> {
    ghost use Rattle.std.specs.Prelude.{◌≡◌, []};
    ghost use Rattle.razor_base.specs.HostDesk.{file_faults, file_reads};

    /// Nothing is open yet.
    pub fn new(rt: R, alloc: Global) -> Self
        ensures calm { file_faults result ≡ 0 }
        ensures unread { file_reads result ≡ [] }
    {
        HostDesk {
            desk: StreamDesk::new(HostFiles::new(rt), alloc),
        }
    }
}

impl<R: Files + Input + Drop> Desk for HostDesk<R> {
    ghost use Rattle.std.specs.Prelude.{◌≡◌, ◌≢◌, ◌≤◌, ◌==◌, ◌<◌, ℕ, List, length, Ok, Some, IfOk, OnOk, OnErr, is_ok, if◌then◌else◌, [], ◌∷◌, ◌++◌};
    ghost use Rattle.razor_base.specs.Headline.Outcomes.{outcome_by};
    ghost use Rattle.razor_base.specs.Headline.Readings.{reading};
    ghost use Rattle.razor_limits.specs.Counts.{counted, Rose};
    ghost use Rattle.razor_base.specs.HostDesk.{file_faults, file_reads, host_name};

    ghost reads = { file_reads };

    ghost faults = { λ desk _. file_faults desk };

    fn read(&mut self, name: &str, piece: &mut [u8]) -> Result<usize, Failed>
        ensures added { 0 < length piece.old → file_reads self.new ≡ file_reads self.old ++ reading name.now (outcome_by result piece.new) ∷ [] }
        ensures empty { length piece.old ≡ 0 → (result ≡ Ok 0) × (file_reads self.new ≡ file_reads self.old) }
        ensures within { IfOk result (λ n. n ≤ length piece.new) }
        ensures failed { OnErr result (Rose (file_faults self.old) (file_faults self.new)) }
        ensures calm { OnOk result ((other : List ℕ) → file_faults self.new ≡ file_faults self.old) }
        ensures counts { (other : List ℕ) → file_faults self.old ≤ file_faults self.new }

        // The count rises by one with a failure, and with nothing else.
        ensures rises { file_faults self.new
            ≡ (if is_ok result then file_faults self.old else counted (file_faults self.old)) }

        // What is open has the name that was read, and stays open while that name is read.
        ensures opened { OnOk result (0 < length piece.old → host_name self.new ≡ Some name.now) }
        ensures stays { host_name self.old ≡ Some name.now → host_name self.new ≡ Some name.now }
    {
        self.desk.read(name, piece)
    }
}
