//! The writes that were made, for clauses alone.
ghost use Rattle.std.specs.Prelude.{◌≡◌, List, [], ◌∷◌, ◌++◌};
ghost use Rattle.std.specs.Borrow.{ftrue};
ghost use Rattle.razor_base.specs.Headline.Outcomes.{CallOutcome, Failure, outcome_of};

use std::marker::{Model, PhantomData};

/// The writes so far, in the order in which they were made. It takes no memory, and keeping it costs nothing.
#[derive(Drop)]
pub struct WriteHistory {
    marker: PhantomData<u8>,
    pub ghost writes: { List CallOutcome },
}

impl Model for WriteHistory {
    ghost also_owns = { λ _. ftrue };
}

impl WriteHistory {
    /// Nothing was written.
    pub(crate) fn new() -> WriteHistory
        ensures { result.writes ≡ [] }
    {
        WriteHistory {
            marker: PhantomData,
        }
    }

    /// One write more took the piece, which isn't empty.
    pub(crate) fn note(&mut self, _piece: &[u8])
        ensures { self.new.writes ≡ self.old.writes ++ outcome_of _piece.now ∷ [] }
    {}

    /// One write more, of the piece, failed.
    pub(crate) fn fail(&mut self, _piece: &[u8])
        ensures { self.new.writes ≡ self.old.writes ++ Failure ∷ [] }
    {}
}
