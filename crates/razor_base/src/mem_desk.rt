//! Inputs in memory, of which reads can fail.
ghost use Rattle.std.specs.Prelude.{◌<◌, ℕ, List, false};
ghost use Rattle.std.specs.BTreeMap.{get_by_text};
ghost use Rattle.razor_base.specs.Headline.Readings.{ended, given};
ghost use Rattle.razor_base.specs.Standing.{AreTold};

use crate::desk::Desk;
use crate::fault_plan::FaultPlan;
use crate::read_history::ReadHistory;
use crate::remaining::{Remaining, put};
use razor_limits::{Failed, Memory};
use std::alloc::Global;
use std::collections::BTreeMap;

/// A desk whose inputs lie in memory.
///
/// A read of a name that isn't there fails.
#[derive(Drop)]
pub struct MemDesk {
    inputs: BTreeMap<String, Remaining>,
    most: usize,
    plan: FaultPlan,
    alloc: Global,
    history: ReadHistory,
    ghost told: { (name : List ℕ) → AreTold false (get_by_text inputs name) (given history.reads name) (ended history.reads name) },
    ghost some: { 0 < most },
}

impl MemDesk {
    ghost use Rattle.std.specs.Prelude.{◌≡◌, ◌≢◌, ◌≤◌, ◌<◌, ◌-◌, ◌^◌, ◌↔◌, ◌⊎◌, ℕ, List, [], ◌∷◌, ◌++◌, Some, None, false, IfOk, OnOk, OnErr, IsTrue};
    ghost use Rattle.razor_base.specs.MemDesk.{left_under, put_under, reads_under, most_at_once, chosen_reads, reads_made, read_faults};
    ghost use Rattle.razor_base.specs.Texts.{MayHold};

    /// A desk without inputs.
    pub fn new(alloc: Global) -> MemDesk
        ensures none { (name : List ℕ) → put_under result name ≡ None }
        ensures unread { reads_under result ≡ [] }
        ensures whole { most_at_once result ≡ 2 ^ 64 - 1 }
        ensures calm { (chosen_reads result ≡ []) × (reads_made result ≡ 0) × (read_faults result ≡ 0) }
    {
        MemDesk {
            inputs: BTreeMap::new(alloc),
            most: usize::MAX,
            plan: FaultPlan::new(alloc),
            alloc,
            history: ReadHistory::new(),
        }
    }

    /// Puts the bytes under the name, unless it is there. Answers whether it was not.
    pub fn add(&mut self, name: &str, bytes: &[u8]) -> Result<bool, Memory>
        ensures added { IfOk result (λ added. IsTrue added ↔ (left_under self.old name.now ≡ None)) }
        ensures told { IfOk result (λ added. IsTrue added → put_under self.new name.now ≡ Some bytes.now) }
        ensures unread { reads_under self.new ≡ reads_under self.old }
        ensures there { IfOk result (λ added. IsTrue added ⊎ (put_under self.new name.now ≡ put_under self.old name.now)) }
        ensures err { OnErr result (put_under self.new name.now ≡ put_under self.old name.now) }

        // Nothing else changes.
        ensures others { (other : List ℕ) → other ≢ name.now → put_under self.new other ≡ put_under self.old other }
        ensures most { most_at_once self.new ≡ most_at_once self.old }
        ensures chosen { chosen_reads self.new ≡ chosen_reads self.old }
        ensures counts { (reads_made self.new ≡ reads_made self.old) × (read_faults self.new ≡ read_faults self.old) }
    {
        if self.inputs.contains_key(name) {
            return Ok(false);
        }
        put(&mut self.inputs, self.alloc, name, bytes)?;
        Ok(true)
    }

    /// Lets the read of this number fail. The first read has number 1, and reads into an empty piece
    /// have none.
    pub fn fail_at(&mut self, call: u64) -> Result<(), Memory>
        ensures ok { OnOk result (chosen_reads self.new ≡ chosen_reads self.old ++ call ∷ []) }
        ensures err { OnErr result (chosen_reads self.new ≡ chosen_reads self.old) }
        ensures inputs { (name : List ℕ) → put_under self.new name ≡ put_under self.old name }
        ensures unread { reads_under self.new ≡ reads_under self.old }
        ensures most { most_at_once self.new ≡ most_at_once self.old }
        ensures counts { (reads_made self.new ≡ reads_made self.old) × (read_faults self.new ≡ read_faults self.old) }
    {
        self.plan.fail_at(call)
    }

    /// Bounds the bytes of each read from now on.
    pub fn piece_limit(&mut self, most: usize)
        requires { 0 < most }
        ensures most { most_at_once self.new ≡ most }
        ensures inputs { (name : List ℕ) → put_under self.new name ≡ put_under self.old name }
        ensures unread { reads_under self.new ≡ reads_under self.old }
        ensures chosen { chosen_reads self.new ≡ chosen_reads self.old }
        ensures counts { (reads_made self.new ≡ reads_made self.old) × (read_faults self.new ≡ read_faults self.old) }
    {
        self.most = most;
    }

    /// What reads gave is a front of what was put there, and all of it where they reported the end. The function does nothing.
    pub fn has_its_texts(&self)
        ensures { (name text : List ℕ) → put_under self.now name ≡ Some text → MayHold (reads_under self.now) name text }
    {}
}

impl Desk for MemDesk {
    ghost use Rattle.std.specs.Prelude.{◌≡◌, ◌≢◌, ◌≤◌, ◌==◌, ℕ, List, length, None, Ok, IfOk, OnOk, OnErr, is_ok, if◌then◌else◌, ◌<◌, [], ◌∷◌, ◌++◌};
    ghost use Rattle.razor_base.specs.Headline.Outcomes.{outcome_by};
    ghost use Rattle.razor_base.specs.Headline.Readings.{reading};
    ghost use Rattle.razor_limits.specs.Counts.{counted, Rose};
    ghost use Rattle.razor_base.specs.MemDesk.{put_under, reads_under, most_at_once, chosen_reads, reads_made, read_faults, read_answer};

    ghost reads = { reads_under };

    ghost faults = { λ desk _. read_faults desk };

    fn read(&mut self, name: &str, piece: &mut [u8]) -> Result<usize, Failed>
        ensures added { 0 < length piece.old → reads_under self.new ≡ reads_under self.old ++ reading name.now (outcome_by result piece.new) ∷ [] }
        ensures empty { length piece.old ≡ 0 → (result ≡ Ok 0) × (reads_under self.new ≡ reads_under self.old) }
        ensures within { IfOk result (λ n. n ≤ length piece.new) }
        ensures failed { OnErr result (Rose (read_faults self.old) (read_faults self.new)) }
        ensures calm { OnOk result ((other : List ℕ) → read_faults self.new ≡ read_faults self.old) }
        ensures counts { (other : List ℕ) → read_faults self.old ≤ read_faults self.new }

        // Exactly what it answers.
        ensures answer { result ≡ read_answer self.old name.now (length piece.old) }

        // What was put there stays.
        ensures stays { put_under self.new name.now ≡ put_under self.old name.now }
        ensures same { (other : List ℕ) → other ≢ name.now → put_under self.new other ≡ put_under self.old other }

        // How the counts go on.
        ensures made { reads_made self.new
            ≡ (if length piece.old == 0 then reads_made self.old else counted (reads_made self.old)) }
        ensures faults { read_faults self.new
            ≡ (if is_ok result then read_faults self.old else counted (read_faults self.old)) }
        ensures chosen { chosen_reads self.new ≡ chosen_reads self.old }
        ensures most { most_at_once self.new ≡ most_at_once self.old }
    {
        if piece.is_empty() {
            return Ok(0);
        }
        if self.plan.begin() {
            self.history.fail(name.as_bytes());
            return Err(self.plan.fail());
        }
        let most = self.most;
        match self.inputs.get_mut(name) {
            Some(input) => {
                let count = input.read(piece, most);
                self.history.note(name.as_bytes(), &piece[..count]);
                Ok(count)
            }
            None => {
                self.history.fail(name.as_bytes());
                Err(self.plan.fail())
            }
        }
    }
}
