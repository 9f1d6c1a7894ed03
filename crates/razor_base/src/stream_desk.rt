//! A desk over streams that are opened by their names.
ghost use Rattle.std.specs.Prelude.{◌≡◌, ◌≢◌, ℕ, List, Some, IfOk, IsOkAnd, string_bytes};
ghost use Rattle.std.specs.Io.KnownBytes.{Keeps};
ghost use Rattle.razor_base.specs.StreamDesk.{IsOpening, name_of};

use crate::desk::Desk;
use crate::opener::Opener;
use crate::read_recorder::ReadRecorder;
use crate::stream::{Source, read_some};
use razor_limits::Failed;
use std::alloc::Global;

/// A desk over streams that are opened by their names.
///
/// One stream is open at a time: it is opened at the first read of its name, and stays open until another
/// name is read. What is given under a name is told, over all streams that were opened for it.
#[derive(Drop)]
pub(crate) struct StreamDesk<O, S: Source> {
    opener: O,
    alloc: Global,
    opened: Option<Opened<S>>,
    faults: u64,
    recorder: ReadRecorder<S::File, S::Input>,
}

/// What is open, and its name.
#[derive(Drop)]
pub(crate) struct Opened<S> {
    name: String,
    stream: S,
}

impl<O: Opener<Stream = S>, S: Source + Drop> StreamDesk<O, S> {
    ghost use Rattle.razor_base.specs.Headline.Outcomes.{outcome_of};
    ghost use Rattle.razor_base.specs.Headline.Readings.{reading};
    ghost use Rattle.std.specs.Prelude.{◌≡◌, ◌≤◌, ◌<◌, ◌≢◌, ◌∷◌, ◌++◌, [], ℕ, List, length, take, None, Some, IfOk, OnOk, MatchResult};
    ghost use Rattle.std.specs.Io.KnownBytes.{ReadConsumes};
    ghost use Rattle.razor_base.specs.StreamDesk.{IsOpening, desk_reads, open_name, left_open, open_faults, opener_of};

    /// Nothing is open yet.
    pub(crate) fn new(opener: O, alloc: Global) -> Self
        ensures over { opener_of result ≡ opener }
        ensures none { open_name result ≡ None }
        ensures calm { open_faults result ≡ 0 }
        ensures unread { desk_reads result ≡ [] }
    {
        StreamDesk {
            opener,
            alloc,
            opened: None,
            faults: 0,
            recorder: ReadRecorder::new(),
        }
    }

    /// Reads from what is open under the name, or opens it first.
    fn read_named(&mut self, name: &str, piece: &mut [u8]) -> Result<usize, Failed>
        requires room { 0 < length piece.old }
        ensures within { IfOk result (λ n. n ≤ length piece.new) }
        ensures faults { open_faults self.new ≡ open_faults self.old }
        ensures noted { MatchResult result (λ n. desk_reads self.new ≡ desk_reads self.old ++ reading name.now (outcome_of (take n piece.new)) ∷ []) (λ _. desk_reads self.new ≡ desk_reads self.old) }
        ensures length { length piece.new ≡ length piece.old }

        // Nothing is opened where the name is open, and else one stream is.
        ensures keeps { open_name self.old ≡ Some name.now → opener_of self.new ≡ opener_of self.old }
        ensures counted { open_name self.old ≢ Some name.now → IsOpening (O.opened (opener_of self.old)) (O.opened (opener_of self.new)) }
        ensures contents { (other : List ℕ) → O.contents (opener_of self.new) other ≡ O.contents (opener_of self.old) other }

        // The name is open afterwards; one that was open stays so, also after a failure.
        ensures opened { OnOk result (open_name self.new ≡ Some name.now) }
        ensures stays { open_name self.old ≡ Some name.now → open_name self.new ≡ Some name.now }

        // The bytes come from where the last read of the name ended, or from its start.
        ensures goes_on { open_name self.old ≡ Some name.now →
            ReadConsumes (left_open S.left self.old) (left_open S.left self.new) result piece.new }
        ensures begins { open_name self.old ≢ Some name.now →
            OnOk result (ReadConsumes (O.contents (opener_of self.old) name.now) (left_open S.left self.new) result piece.new) }
    {
        let kept = self.opened.take();
        let mut opened = reopen(&mut self.opener, self.alloc, kept, name)?;
        let outcome = read_some(&mut opened.stream, &mut self.recorder, name, piece);
        self.opened = Some(opened);
        outcome
    }
}

/// What is open already, if it has the name; else it is closed, and the name is opened.
fn reopen<O: Opener<Stream = S>, S: Source + Drop>(
    opener: &mut O,
    alloc: Global,
    kept: Option<Opened<S>>,
    name: &str,
) -> Result<Opened<S>, Failed>
    ensures name { IfOk result (λ opened. string_bytes opened.name ≡ name.now) }
    ensures kept { name_of kept ≡ Some name.now → IsOkAnd result (λ opened. Some opened ≡ kept) }
    ensures untouched { name_of kept ≡ Some name.now → opener.new ≡ opener.old }
    ensures anew { name_of kept ≢ Some name.now →
        IfOk result (λ opened. Keeps (O.contents opener.old name.now) (S.left opened.stream)) }
    ensures counted { name_of kept ≢ Some name.now → IsOpening (O.opened opener.old) (O.opened opener.new) }
    ensures contents { (other : List ℕ) → O.contents opener.new other ≡ O.contents opener.old other }
{
    match kept {
        Some(opened) if opened.name.as_str() == name => Ok(opened),
        _ => open(opener, alloc, name),
    }
}

/// Opens the stream of the name at its start.
fn open<O: Opener<Stream = S>, S: Source + Drop>(
    opener: &mut O,
    alloc: Global,
    name: &str,
) -> Result<Opened<S>, Failed>
    ensures name { IfOk result (λ opened. string_bytes opened.name ≡ name.now) }
    ensures start { IfOk result (λ opened. Keeps (O.contents opener.old name.now) (S.left opened.stream)) }
    ensures counted { IsOpening (O.opened opener.old) (O.opened opener.new) }
    ensures contents { (other : List ℕ) → O.contents opener.new other ≡ O.contents opener.old other }
{
    let stream = opener.open(name)?;
    let Ok(name) = String::from_str(alloc, name) else {
        return Err(Failed);
    };
    Ok(Opened { name, stream })
}

impl<O: Opener<Stream = S>, S: Source + Drop> Desk for StreamDesk<O, S> {
    ghost use Rattle.std.specs.Prelude.{◌≡◌, ◌≢◌, ◌≤◌, ◌<◌, ◌==◌, ℕ, List, length, Ok, Some, IfOk, OnOk, OnErr, is_ok, if◌then◌else◌, [], ◌∷◌, ◌++◌};
    ghost use Rattle.std.specs.Io.KnownBytes.{ReadConsumes};
    ghost use Rattle.razor_base.specs.Headline.Readings.{reading};
    ghost use Rattle.razor_base.specs.Headline.Outcomes.{outcome_by};
    ghost use Rattle.razor_limits.specs.Counts.{counted, Rose};
    ghost use Rattle.razor_base.specs.StreamDesk.{IsOpening, desk_reads, open_name, left_open, open_faults, opener_of};

    ghost reads = { desk_reads };

    ghost faults = { λ desk _. open_faults desk };

    fn read(&mut self, name: &str, piece: &mut [u8]) -> Result<usize, Failed>
        ensures added { 0 < length piece.old → desk_reads self.new ≡ desk_reads self.old ++ reading name.now (outcome_by result piece.new) ∷ [] }
        ensures empty { length piece.old ≡ 0 → (result ≡ Ok 0) × (desk_reads self.new ≡ desk_reads self.old) }
        ensures within { IfOk result (λ n. n ≤ length piece.new) }
        ensures failed { OnErr result (Rose (open_faults self.old) (open_faults self.new)) }
        ensures calm { OnOk result ((other : List ℕ) → open_faults self.new ≡ open_faults self.old) }
        ensures counts { (other : List ℕ) → open_faults self.old ≤ open_faults self.new }

        // The count rises by one with a failure, and with nothing else.
        ensures rises { open_faults self.new
            ≡ (if is_ok result then open_faults self.old else counted (open_faults self.old)) }

        // Nothing is opened where the name is open, and else one stream is.
        ensures keeps { open_name self.old ≡ Some name.now → opener_of self.new ≡ opener_of self.old }
        ensures counted { open_name self.old ≢ Some name.now → 0 < length piece.old → IsOpening (O.opened (opener_of self.old)) (O.opened (opener_of self.new)) }
        ensures contents { (other : List ℕ) → O.contents (opener_of self.new) other ≡ O.contents (opener_of self.old) other }

        // A name that is read is open from then on, also after a failure.
        ensures opened { OnOk result (0 < length piece.old → open_name self.new ≡ Some name.now) }
        ensures stays { open_name self.old ≡ Some name.now → open_name self.new ≡ Some name.now }

        // The bytes come from where the last read of the name ended, or from its start.
        ensures goes_on { open_name self.old ≡ Some name.now → 0 < length piece.old →
            ReadConsumes (left_open S.left self.old) (left_open S.left self.new) result piece.new }
        ensures begins { open_name self.old ≢ Some name.now → 0 < length piece.old →
            OnOk result (ReadConsumes (O.contents (opener_of self.old) name.now) (left_open S.left self.new) result piece.new) }
    {
        if piece.is_empty() {
            return Ok(0);
        }
        match self.read_named(name, piece) {
            Ok(count) => Ok(count),
            Err(_) => {
                self.recorder.fail(name);
                self.faults = self.faults.saturating_add(1);
                Err(Failed)
            }
        }
    }
}
