//! The claims of a proof.

use crate::covers::Covers;
use crate::pair_covers::cover_pairs;
use crate::search::Search;
use crate::sides::Sides;
use agreement_check::Pair;
use field_boxes::{Header, RuleList};
use razor_limits::Memory;
use std::alloc::Global;
use ternary_words::{Table, values_of};

/// What a search came to. Nothing is promised of it.
#[derive(Clone, Copy, Debug, PartialEq, Eq)]
pub enum Outcome {
    /// The claims show that list and table decide every header alike.
    Equal,
    /// They show that this is the least header that list and table don't decide alike.
    Differ(Header),
    /// They show neither: too many words would have had to be looked at.
    Unknown,
}

/// The claims that a search found, in the order of the lines of a proof.
#[derive(Drop)]
pub struct Found {
    pub outcome: Outcome,
    /// What covers each entry, and the open one behind the last.
    pub entries: Covers,
    /// What covers each rule, and the open one behind the last.
    pub rules: Covers,
    /// The open pairs, by rising entries, and for one entry by rising rules.
    pub pairs: Vec<Pair>,
    /// What covers each pair: no steps where no cover was found.
    pub of_pairs: Covers,
}

/// Searches for the claims of a proof that list and table decide every header alike, or which is the least one that they
/// don't.
///
/// It ends when it has looked at about so many words, and hands over what it has: a claim for each entry and each rule in
/// any case, but maybe not all pairs.
pub fn find(alloc: Global, list: &RuleList, table: &Table, words: u64) -> Result<Found, Memory> {
    let sides = Sides::new(alloc, list, table)?;
    let mut search = Search::of(alloc, &sides, words)?;
    let mut of_pairs = Covers::new(alloc);
    let are_done = cover_pairs(&sides, &search.pairs, &mut search.cutting, &mut of_pairs)?;
    let outcome = if are_done && search.has_all {
        outcome_of(search.cutting.bound)
    } else {
        Outcome::Unknown
    };
    let Search {
        entries,
        rules,
        pairs,
        ..
    } = search;
    Ok(Found {
        outcome,
        entries: entries.into_covers(),
        rules: rules.into_covers(),
        pairs,
        of_pairs,
    })
}

/// What covers of all headers below the bound show.
fn outcome_of(bound: u128) -> Outcome {
    if bound >= 1 << 104 {
        return Outcome::Equal;
    }
    match Header::new(values_of(bound)) {
        Some(header) => Outcome::Differ(header),
        None => Outcome::Unknown,
    }
}
