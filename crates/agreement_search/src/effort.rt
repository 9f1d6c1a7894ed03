//! How much the search tries at once.

/// Rules and entries of which a claim is tried at first, and with which it is made to reach less far.
pub(crate) const FIRST: usize = 96;

pub(crate) const THEN: usize = 768;

/// Rules and entries of which the cover of a pair is tried at once.
pub(crate) const OF_PAIR: usize = 64;

/// Steps that a claim may take for each pair that it may save, where it takes more than the covers of these.
pub(crate) const STEPS_A_PAIR: usize = 12;

/// Pairs that are compared one by one.
pub(crate) const PAIRS_AT_ONCE: usize = 2048;

/// Open pairs that are kept at most.
pub(crate) const MOST_PAIRS: usize = 1 << 24;

/// Cubes of a pair that are found at most.
pub(crate) const CUBES_OF_PAIR: usize = 256;
