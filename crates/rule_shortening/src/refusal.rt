//! Why rules have no short table.
use razor_limits::Memory;
use thiserror::Error;

/// Why rules have no short table.
#[derive(Clone, Copy, Debug, PartialEq, Eq, Error)]
pub enum ShortenError {
    /// Their direct expansion has more entries than the limit, and no shorter table was found within it.
    #[error("{needed} entries needed, limit {limit}")]
    TooMany { needed: u128, limit: u32 },
    /// Memory was refused.
    #[error("out of memory")]
    Memory,
}

impl From<Memory> for ShortenError {
    ghost use Rattle.std.specs.Prelude.{◌≡◌};
    ghost use Rattle.rule_shortening.specs.declared.refusal.ShortenError.TheVariants.{Memory as RefusedMemory};

    ghost from_gives = { λ _ e. e ≡ RefusedMemory };

    fn from(_refused: Memory) -> Self {
        ShortenError::Memory
    }
}
