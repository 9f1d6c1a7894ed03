//! Why the writing of rows stopped.
ghost use Rattle.std.specs.Prelude.{◌≡◌};
ghost use Rattle.box_partition.specs.declared.stop.Stop.TheVariants.{Fault, Memory as refused};

use razor_base::{Failed, Memory};

/// Why rows were not written to their end.
#[derive(Clone, Copy, Debug, PartialEq, Eq)]
pub(crate) enum Stop {
    /// A write failed.
    Fault,
    /// Memory was refused.
    Memory,
}

impl From<Failed> for Stop {
    ghost from_gives = { λ _ e. e ≡ Fault };

    fn from(_failed: Failed) -> Self {
        Stop::Fault
    }
}

impl From<Memory> for Stop {
    ghost from_gives = { λ _ e. e ≡ refused };

    fn from(_refused: Memory) -> Self {
        Stop::Memory
    }
}
