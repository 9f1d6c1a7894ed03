//! Why calls of a swapper are refused.

use thiserror::Error;

/// Why a swap can't begin.
#[derive(Clone, Copy, Debug, PartialEq, Eq, Error)]
pub enum BeginRefusal {
    /// A swap is pending.
    #[error("a swap is pending")]
    Busy,
    /// None is pending, and the new table fits on neither side of the settled one: so many slots are free
    /// above it, at the lower numbers, and below it, and so many entries want room.
    #[error("{wanted} slots wanted, {free_above} free above and {free_below} below")]
    NoRoom {
        free_above: u32,
        free_below: u32,
        wanted: u32,
    },
}

/// Why a step wasn't taken.
#[derive(Clone, Copy, Debug, PartialEq, Eq, Error)]
pub enum StepRefusal {
    /// No swap is pending.
    #[error("no swap is pending")]
    Idle,
    /// The device failed; neither stage nor slots have changed.
    #[error("the device failed")]
    DeviceFault,
}

/// No swap is pending.
#[derive(Clone, Copy, Debug, PartialEq, Eq, Error)]
#[error("no swap is pending")]
pub struct Idle;
