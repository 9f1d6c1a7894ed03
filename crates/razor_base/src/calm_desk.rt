//! Inputs in memory that never fail.
ghost use Rattle.std.specs.Prelude.{ℕ, List, true};
ghost use Rattle.std.specs.BTreeMap.{get_by_text};
ghost use Rattle.razor_base.specs.Headline.Readings.{ended, given};
ghost use Rattle.razor_base.specs.Standing.{AreTold};

use crate::desk::Desk;
use crate::read_history::ReadHistory;
use crate::remaining::{Remaining, put};
use razor_limits::{Failed, Memory};
use std::alloc::Global;
use std::collections::BTreeMap;

/// A desk whose inputs lie in memory, and which never fails.
///
/// A name that isn't there reads as empty.
#[derive(Drop)]
pub struct CalmDesk {
    inputs: BTreeMap<String, Remaining>,
    alloc: Global,
    history: ReadHistory,
    ghost told: { (name : List ℕ) → AreTold true (get_by_text inputs name) (given history.reads name) (ended history.reads name) },
}

impl CalmDesk {
    ghost use Rattle.std.specs.Prelude.{◌≡◌, ◌≢◌, ◌↔◌, ◌⊎◌, ℕ, List, [], Some, None, false, unwrap_or, IfOk, OnErr, IsTrue};
    ghost use Rattle.razor_base.specs.CalmDesk.{put_under, reads_under};
    ghost use Rattle.razor_base.specs.Texts.{MayHold};

    /// A desk without inputs.
    pub fn new(alloc: Global) -> CalmDesk
        ensures none { (name : List ℕ) → put_under result name ≡ None }
        ensures unread { reads_under result ≡ [] }
    {
        CalmDesk {
            inputs: BTreeMap::new(alloc),
            alloc,
            history: ReadHistory::new(),
        }
    }

    /// Puts the bytes under the name, unless it is there. Answers whether it was not.
    pub fn add(&mut self, name: &str, bytes: &[u8]) -> Result<bool, Memory>
        requires { reads_under self.old ≡ [] }
        ensures added { IfOk result (λ added. IsTrue added ↔ (put_under self.old name.now ≡ None)) }
        ensures told { IfOk result (λ added. IsTrue added → put_under self.new name.now ≡ Some bytes.now) }
        ensures unread { reads_under self.new ≡ reads_under self.old }
        ensures there { IfOk result (λ added. IsTrue added ⊎ (put_under self.new name.now ≡ put_under self.old name.now)) }
        ensures err { OnErr result (put_under self.new name.now ≡ put_under self.old name.now) }
        ensures others { (other : List ℕ) → other ≢ name.now → put_under self.new other ≡ put_under self.old other }
    {
        if self.inputs.contains_key(name) {
            return Ok(false);
        }
        put(&mut self.inputs, self.alloc, name, bytes)?;
        Ok(true)
    }

    /// What reads gave is a front of what was put there, and all of it where they reported the end. The function does nothing.
    pub fn has_its_texts(&self)
        ensures { (name : List ℕ) → MayHold (reads_under self.now) name (unwrap_or (put_under self.now name) []) }
    {}
}

impl Desk for CalmDesk {
    ghost use Rattle.std.specs.Prelude.{◌≡◌, ◌≢◌, ◌≤◌, ℕ, List, length, min, Ok, IfOk, OnOk, OnErr, ◌<◌, [], ◌∷◌, ◌++◌};
    ghost use Rattle.razor_base.specs.Headline.Outcomes.{outcome_by};
    ghost use Rattle.razor_base.specs.Headline.Readings.{reading};
    ghost use Rattle.razor_limits.specs.Counts.{Rose};
    ghost use Rattle.razor_base.specs.CalmDesk.{left_to_read, put_under, reads_under};

    ghost reads = { reads_under };

    ghost faults = { λ _ _. 0 };

    fn read(&mut self, name: &str, piece: &mut [u8]) -> Result<usize, Failed>
        ensures added { 0 < length piece.old → reads_under self.new ≡ reads_under self.old ++ reading name.now (outcome_by result piece.new) ∷ [] }
        ensures empty { length piece.old ≡ 0 → (result ≡ Ok 0) × (reads_under self.new ≡ reads_under self.old) }
        ensures within { IfOk result (λ n. n ≤ length piece.new) }
        ensures failed { OnErr result (Rose 0 0) }
        ensures calm { OnOk result ((other : List ℕ) → ◌≡◌ {A = ℕ} 0 0) }
        ensures counts { (other : List ℕ) → 0 ≤ 0 }

        // It gives as much as there is room for.
        ensures answer { result ≡ Ok (min (length piece.old) (length (left_to_read self.old name.now))) }

        // What was put there stays.
        ensures stays { put_under self.new name.now ≡ put_under self.old name.now }
        ensures same { (other : List ℕ) → other ≢ name.now → put_under self.new other ≡ put_under self.old other }
    {
        if piece.is_empty() {
            return Ok(0);
        }
        match self.inputs.get_mut(name) {
            Some(input) => {
                let count = input.read(piece, usize::MAX);
                self.history.note(name.as_bytes(), &piece[..count]);
                Ok(count)
            }
            None => {
                self.history.note(name.as_bytes(), &[]);
                Ok(0)
            }
        }
    }
}
