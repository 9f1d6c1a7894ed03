//! Why an edit or a commit was refused.
ghost use Rattle.std.specs.Prelude.{◌≡◌};
ghost use Rattle.edit_session.specs.Refusals.{begin_refusal_of, commit_refusal_of, patch_refusal_of, shorten_refusal_of};
ghost use Rattle.edit_session.specs.declared.refusal.PlaceRefusal.TheVariants as places;
ghost use Rattle.edit_session.specs.declared.refusal.CommitRefusal.TheVariants as commits;

use bank_update::BeginRefusal;
use razor_base::Memory;
use rule_shortening::ShortenError;
use slot_patch::PatchRefusal;
use table_compose::ComposeError;
use thiserror::Error;

/// Why a rule wasn't added.
#[derive(Clone, Copy, Debug, PartialEq, Eq, Error)]
pub enum PlaceRefusal {
    /// The place is 0, or above the number of rules and 1.
    #[error("there are {count} rules, and no such place among them")]
    NoPlace { count: u32 },
    /// The place is good, and there are 65,536 rules already.
    #[error("there are 65,536 rules already")]
    Full,
    /// Memory was refused.
    #[error("memory was refused")]
    Memory,
}

impl From<Memory> for PlaceRefusal {
    ghost from_gives = { λ _ e. e ≡ places.Memory };

    fn from(_refused: Memory) -> Self {
        PlaceRefusal::Memory
    }
}

/// There is no rule with this number: there are `count` rules, counted from 1.
#[derive(Clone, Copy, Debug, PartialEq, Eq, Error)]
#[error("there are {count} rules, and none has this number")]
pub struct NoPlace {
    pub count: u32,
}

/// Why no swap to the table of the list was begun.
#[derive(Clone, Copy, Debug, PartialEq, Eq, Error)]
pub enum CommitRefusal {
    /// A swap is pending.
    #[error("a swap is pending")]
    Busy,
    /// None is pending, and what the list needs, `needed`, is above the limit: the least cost in the order of the fields,
    /// or the entries of the direct expansion where tables are searched for.
    #[error("{needed} entries are needed, and the limit is {limit}")]
    TooMany {
        needed: u128,
        limit: u32,
    },
    /// None is pending and there is a table within the limit, but it fits on neither side of the settled
    /// one: so many slots are free above it, at the lower numbers, and below it, and so many entries want room.
    #[error("{free_above} slots are free above and {free_below} below, and {wanted} are wanted")]
    NoRoom {
        free_above: u32,
        free_below: u32,
        wanted: u32,
    },
    /// None is pending and there is a table within the limit, but in place the settled table and this one need so
    /// many slots, and there are only these.
    #[error("{needed} slots are needed, and there are {slots}")]
    NoSlots {
        needed: u64,
        slots: u32,
    },
    /// Memory was refused.
    #[error("memory was refused")]
    Memory,
}

impl From<Memory> for CommitRefusal {
    ghost from_gives = { λ _ e. e ≡ commits.Memory };

    fn from(_refused: Memory) -> Self {
        CommitRefusal::Memory
    }
}

impl From<ComposeError> for CommitRefusal {
    ghost from_gives = { λ error e. e ≡ commit_refusal_of error };

    fn from(error: ComposeError) -> Self {
        match error {
            ComposeError::TooMany { needed, limit } => CommitRefusal::TooMany { needed, limit },
            ComposeError::Memory => CommitRefusal::Memory,
        }
    }
}

impl From<ShortenError> for CommitRefusal {
    ghost from_gives = { λ error e. e ≡ shorten_refusal_of error };

    fn from(error: ShortenError) -> Self {
        match error {
            ShortenError::TooMany { needed, limit } => CommitRefusal::TooMany { needed, limit },
            ShortenError::Memory => CommitRefusal::Memory,
        }
    }
}

impl From<BeginRefusal> for CommitRefusal {
    ghost from_gives = { λ refusal e. e ≡ begin_refusal_of refusal };

    fn from(refusal: BeginRefusal) -> Self {
        match refusal {
            BeginRefusal::Busy => CommitRefusal::Busy,
            BeginRefusal::NoRoom {
                free_above,
                free_below,
                wanted,
            } => CommitRefusal::NoRoom {
                free_above,
                free_below,
                wanted,
            },
        }
    }
}

impl From<PatchRefusal> for CommitRefusal {
    ghost from_gives = { λ refusal e. e ≡ patch_refusal_of refusal };

    fn from(refusal: PatchRefusal) -> Self {
        match refusal {
            PatchRefusal::Busy => CommitRefusal::Busy,
            PatchRefusal::NoRoom { needed, slots } => CommitRefusal::NoSlots { needed, slots },
            PatchRefusal::Memory => CommitRefusal::Memory,
        }
    }
}
