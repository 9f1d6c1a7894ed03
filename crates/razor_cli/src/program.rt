//! The top call over the real files and streams.
ghost use Rattle.std.specs.Prelude.{◌≡◌, ℕ, List, [], ◌∷◌, true, codes};
ghost use Rattle.razor_base.specs.Headline.Outcomes.{Extends, taken};
ghost use Rattle.razor_base.specs.Headline.Readings.{ended, given};
ghost use Rattle.razor_base.specs.HostDesk.{file_faults, file_reads};
ghost use Rattle.razor_base.specs.HostSink.{stream_faults, stream_writes};
ghost use Rattle.razor_base.specs.Texts.{left_of};
ghost use Rattle.command_words.specs.Spelling.{command_of};
ghost use Rattle.razor_core.specs.CallsByStatus.{AreReads, AreWritten};
ghost use Rattle.razor_core.specs.Headline.Further.{IsArranged, IsShortened};
ghost use Rattle.razor_core.specs.Headline.Tables.{IsCompiled};
ghost use Rattle.razor_core.specs.Outside.{seen};
ghost use Rattle.razor_core.specs.PossibleTexts.{MayBeTexts};
ghost use Rattle.razor_core.specs.Promise.{Promise};
ghost use Rattle.razor_core.specs.Says.{Says};

use razor_base::{HostDesk, HostSink};
use razor_core::{Words, razor};
use std::alloc::Global;
use std::rt::Files;

/// Does what the words say, as [`razor`] does, over the files of the system, what is printed to as output, and what is
/// printed to as standard error.
///
/// The lists of reads and writes are those that the recorders beneath the desk and the sinks noted of the system's own
/// reads and writes.
pub fn run_over<R: Files + Input + Drop, P: Print, Q: Print>(
    alloc: Global,
    words: &Words,
    desk: &mut HostDesk<R>,
    out: &mut HostSink<P>,
    err: &mut HostSink<Q>,
) -> u8
    // The file was read to its end in this call, and what was written then is the text of a table for what was read of it.
    ensures headline { (file : List ℕ) → words.now ≡ codes "compile" ∷ codes "--" ∷ file ∷ [] → result ≡ 0 →
        Extends (file_reads desk.old) (file_reads desk.new) (λ read. (ended read file ≡ true) × Extends (stream_writes out.old) (stream_writes out.new) (λ written. IsCompiled (given read file) (taken written))) }
    ensures arranged { (file : List ℕ) → words.now ≡ codes "arrange" ∷ codes "--" ∷ file ∷ [] → result ≡ 0 →
        Extends (file_reads desk.old) (file_reads desk.new) (λ read. (ended read file ≡ true) × Extends (stream_writes out.old) (stream_writes out.new) (λ written. IsArranged (given read file) (taken written))) }
    ensures shortened { (file : List ℕ) → words.now ≡ codes "shorten" ∷ codes "--" ∷ file ∷ [] → result ≡ 0 →
        Extends (file_reads desk.old) (file_reads desk.new) (λ read. (ended read file ≡ true) × Extends (stream_writes out.old) (stream_writes out.new) (λ written. IsShortened (given read file) (taken written))) }

    // The promise for each command, whatever the files may hold by what was read of them.
    ensures promise { (texts : List ℕ → List ℕ) → MayBeTexts (file_reads desk.new) texts →
        let before = seen (left_of file_reads texts) (λ files name. file_faults files) stream_writes stream_faults desk.old out.old in
        let after = seen (left_of file_reads texts) (λ files name. file_faults files) stream_writes stream_faults desk.new out.new in
        Promise words.now before after (Says stream_writes stream_faults err.old err.new) result }

    // Which reads and writes it made.
    ensures reads { Extends (file_reads desk.old) (file_reads desk.new) (AreReads (command_of words.now) result) }
    ensures writes { Extends (stream_writes out.old) (stream_writes out.new) (AreWritten result) }
{
    razor(alloc, words, desk, out, err)
}
