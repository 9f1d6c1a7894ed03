//! What gives the bytes of named inputs.
ghost use Rattle.std.specs.Prelude.{◌≡◌, ◌≤◌, ◌<◌, ℕ, List, [], ◌∷◌, ◌++◌, length, Ok, IfOk, OnOk, OnErr};
ghost use Rattle.razor_base.specs.Headline.Outcomes.{outcome_by};
ghost use Rattle.razor_base.specs.Headline.Readings.{Reading, reading};
ghost use Rattle.razor_limits.specs.Counts.{Rose};

use razor_limits::Failed;

/// Gives the bytes of inputs that are named.
pub trait Desk {
    /// The reads so far, in the order in which they were made.
    ghost reads: { Self → List Reading };

    /// How often a read under a name has failed; the count stays at 2^64 - 1 once it is there.
    ghost faults: { Self → List ℕ → ℕ };

    /// Moves the next bytes under the name into the front of the piece, and answers how many.
    ///
    /// It answers 0 for a piece that isn't empty only at the end of the input.
    fn read(&mut self, name: &str, piece: &mut [u8]) -> Result<usize, Failed>
        ensures added { 0 < length piece.old → reads self.new ≡ reads self.old ++ reading name.now (outcome_by result piece.new) ∷ [] }
        ensures empty { length piece.old ≡ 0 → (result ≡ Ok 0) × (reads self.new ≡ reads self.old) }
        ensures within { IfOk result (λ n. n ≤ length piece.new) }

        // A failure is counted and nothing else is, and no count falls.
        ensures failed { OnErr result (Rose (faults self.old name.now) (faults self.new name.now)) }
        ensures calm { OnOk result ((other : List ℕ) → faults self.new other ≡ faults self.old other) }
        ensures counts { (other : List ℕ) → faults self.old other ≤ faults self.new other };
}
