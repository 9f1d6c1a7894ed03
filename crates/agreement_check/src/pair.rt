//! Pairs of a rule and an entry.
ghost use Rattle.std.specs.Prelude.{◌≡◌};
ghost use Rattle.agreement_check.specs.Pairs.{comes_before};

/// The places of a rule and of an entry, counted from 0. Behind the last of each stands an open one, whose place is their
/// number.
#[derive(Clone, Copy, Debug, PartialEq, Eq)]
pub struct Pair {
    pub rule: u32,
    pub entry: u32,
}

/// Whether the pair comes before the other one: by their entries, and for one entry by their rules.
pub(crate) fn comes_before(pair: &Pair, other: &Pair) -> bool
    ensures { result ≡ comes_before pair.now other.now }
{
    pair.entry < other.entry || pair.entry == other.entry && pair.rule < other.rule
}
