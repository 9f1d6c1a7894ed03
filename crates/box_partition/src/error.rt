//! Why no certificate was written.
ghost use Rattle.std.specs.Prelude.{◌≡◌};
ghost use Rattle.box_partition.specs.declared.error.CertError.TheVariants.{NotPrefix as other, Memory as refused};
ghost use Rattle.box_partition.specs.Stopped.{stopped};

use crate::stop::Stop;
use field_boxes::Header;
use partition_check::NotPrefix;
use razor_base::Memory;
use thiserror::Error;

/// Why no certificate was written, or only its front.
#[derive(Clone, Copy, Debug, PartialEq, Eq, Error)]
pub enum CertError {
    /// The least header on which list and table differ, and the number of each one's decision among its
    /// own names, 0 for none. Nothing was written.
    #[error("list and table differ on the header {values:?}", values = .header.values)]
    Differs {
        header: Header,
        left: u32,
        right: u32,
    },
    /// The first entry, counted from 0, whose word isn't a prefix in each field. Nothing was written.
    #[error("the word of entry {entry}, counted from 0, is not a prefix in each field")]
    NotPrefix {
        entry: u32,
    },
    /// A write failed; a front of the certificate was written.
    #[error("a write failed")]
    Fault,
    /// Memory was refused; nothing was written, or a front of the certificate.
    #[error("memory was refused")]
    Memory,
}

impl From<NotPrefix> for CertError {
    ghost from_gives = { λ refused e. e ≡ other refused.entry };

    fn from(refused: NotPrefix) -> Self {
        CertError::NotPrefix {
            entry: refused.entry,
        }
    }
}

impl From<Memory> for CertError {
    ghost from_gives = { λ _ e. e ≡ refused };

    fn from(_refused: Memory) -> Self {
        CertError::Memory
    }
}

impl From<Stop> for CertError {
    ghost from_gives = { λ stop e. e ≡ stopped stop };

    fn from(stop: Stop) -> Self {
        match stop {
            Stop::Fault => CertError::Fault,
            Stop::Memory => CertError::Memory,
        }
    }
}
