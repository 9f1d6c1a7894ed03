//! Why a text was refused.

use std::fmt::Display;
use thiserror::Error;

/// Why a text was refused.
#[derive(Clone, Copy, Debug, PartialEq, Eq, Error)]
#[error_bound(R: Display)]
pub enum TextError<R> {
    /// The first bad line, counted from 1, and its first reason.
    #[error("line {line}: {reason}")]
    BadLine { line: u64, reason: R },
    /// Memory was refused.
    #[error("memory was refused")]
    Memory,
}

/// Why a line was refused, before its number is known.
#[derive(Clone, Copy)]
pub enum LineError<R> {
    Bad(R),
    Memory,
}
