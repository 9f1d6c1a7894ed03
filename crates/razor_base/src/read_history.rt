//! The reads that were made, for clauses alone.
ghost use Rattle.std.specs.Prelude.{◌≡◌, List, [], ◌∷◌, ◌++◌};
ghost use Rattle.std.specs.Borrow.{ftrue};
ghost use Rattle.razor_base.specs.Headline.Outcomes.{Failure, outcome_of};
ghost use Rattle.razor_base.specs.Headline.Readings.{Reading, reading};

use std::marker::{Model, PhantomData};

/// The reads so far, in the order in which they were made. It takes no memory, and keeping it costs nothing.
#[derive(Drop)]
pub struct ReadHistory {
    marker: PhantomData<u8>,
    pub ghost reads: { List Reading },
}

impl Model for ReadHistory {
    ghost also_owns = { λ _. ftrue };
}

impl ReadHistory {
    /// Nothing was read.
    pub(crate) fn new() -> ReadHistory
        ensures { result.reads ≡ [] }
    {
        ReadHistory {
            marker: PhantomData,
        }
    }

    /// One read more gave the piece under the name, or met the end where that is empty.
    pub(crate) fn note(&mut self, _name: &[u8], _piece: &[u8])
        ensures { self.new.reads ≡ self.old.reads ++ reading _name.now (outcome_of _piece.now) ∷ [] }
    {}

    /// One read more failed under the name.
    pub(crate) fn fail(&mut self, _name: &[u8])
        ensures { self.new.reads ≡ self.old.reads ++ reading _name.now Failure ∷ [] }
    {}
}
