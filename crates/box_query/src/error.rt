//! Why not all boxes were written.
ghost use Rattle.std.specs.Prelude.{◌≡◌};
ghost use Rattle.box_query.specs.declared.error.QueryError.TheVariants.{Fault as failed, Memory as refused};

use razor_base::{Failed, Memory};
use thiserror::Error;

/// Why not all boxes were written.
#[derive(Clone, Copy, Debug, PartialEq, Eq, Error)]
pub enum QueryError {
    /// A write failed; a front of the boxes' lines was written.
    #[error("a write failed")]
    Fault,
    /// Memory was refused; nothing was written.
    #[error("memory was refused")]
    Memory,
}

impl From<Failed> for QueryError {
    ghost from_gives = { λ _ e. e ≡ failed };

    fn from(_failed: Failed) -> Self {
        QueryError::Fault
    }
}

impl From<Memory> for QueryError {
    ghost from_gives = { λ _ e. e ≡ refused };

    fn from(_refused: Memory) -> Self {
        QueryError::Memory
    }
}
