//! The open pairs: a rule and an entry that decide by different names and, as far as the claims say, may come first on one
//! header.
//!
//! All rules are compared with all entries; the headers are halved at a bit as long as that leaves much fewer to compare.

ghost use Rattle.std.specs.Prelude.{◌<◌};

use crate::candidates::{Candidate, Place};
use crate::claims::{Claims, Named};
use crate::effort::{MOST_PAIRS, PAIRS_AT_ONCE};
use crate::run::Run;
use crate::sides::{Side, Sides};
use agreement_check::Pair;
use razor_limits::Memory;
use std::alloc::Global;
use table_equiv::BitCounts;
use ternary_words::Word;

/// Whose claim leaves the pair open: of the claims that name rules its entry's, of the others its rule's.
pub(crate) fn owner(pair: Pair, named: Named) -> u32 {
    match named {
        Named::Rules => pair.entry,
        Named::Entries => pair.rule,
    }
}

/// What is claimed of the entries and of the rules.
#[derive(Clone, Copy)]
pub(crate) struct Claimed<'a> {
    pub entries: &'a Claims,
    pub rules: &'a Claims,
}

/// Rules and entries that are to be compared: of these those that have headers with this bit.
#[derive(Clone, Copy)]
struct Half {
    rules: Run,
    entries: Run,
    bit: Option<Bit>,
}

/// A bit of a header that is this one.
#[derive(Clone, Copy)]
struct Bit {
    place: u32,
    is_one: bool,
}

impl Bit {
    /// Whether the word leaves the bit open or asks for it.
    #[inline]
    fn may_be_of(self, word: &Word) -> bool {
        word.mask >> self.place.min(127) & 1 == 0
            || (word.value >> self.place.min(127) & 1 == 1) == self.is_one
    }
}

/// The comparison: the rules and entries of the halves that are left, behind one another.
#[derive(Drop)]
struct Comparison {
    rules: Vec<u32>,
    entries: Vec<u32>,
    halves: Vec<Half>,
    found: Vec<Pair>,
}

/// The open pairs by rising entries, and for one entry by rising rules; none where they are too many, or `left` words are
/// too few.
pub(crate) fn open_pairs(
    alloc: Global,
    sides: &Sides,
    claimed: Claimed,
    left: &mut u64,
) -> Result<Option<Vec<Pair>>, Memory> {
    let mut comparison = Comparison::new(alloc, sides)?;
    for _ in 0..u64::MAX {
        let Some(half) = comparison.halves.pop() else {
            return Ok(Some(comparison.sorted()));
        };
        if *left == 0 || comparison.found.len() > MOST_PAIRS {
            return Ok(None);
        }
        let looked = comparison.compare(sides, claimed, half)?;
        *left = left.saturating_sub(looked as u64);
    }
    Ok(None)
}

/// Keeps of the pairs those that are open still, where claims reach less far than before.
pub(crate) fn keep_open(pairs: &mut Vec<Pair>, entries: &Claims, rules: &Claims) {
    pairs.retain(|pair: &Pair| {
        pair.rule < entries.reach(pair.entry) && pair.entry < rules.reach(pair.rule)
    });
}

impl Comparison {
    /// All rules and all entries.
    fn new(alloc: Global, sides: &Sides) -> Result<Comparison, Memory> {
        let rules = places(alloc, sides.list.len())?;
        let entries = places(alloc, sides.table.len())?;
        let mut halves = Vec::new(alloc);
        halves.push(Half {
            rules: Run {
                from: 0,
                to: rules.len(),
            },
            entries: Run {
                from: 0,
                to: entries.len(),
            },
            bit: None,
        })?;
        Ok(Comparison {
            rules,
            entries,
            halves,
            found: Vec::new(alloc),
        })
    }

    /// The pairs that were found, each once.
    fn sorted(self) -> Vec<Pair> {
        let Comparison { mut found, .. } = self;
        found.sort_unstable_by_key(|pair: &Pair| (pair.entry, pair.rule));
        found.dedup();
        found
    }

    /// Compares a half, or puts its halves before the others; the answer is how much was looked at.
    fn compare(&mut self, sides: &Sides, claimed: Claimed, half: Half) -> Result<usize, Memory> {
        let rules = push_half(&mut self.rules, &sides.list, half.rules, half.bit)?;
        let entries = push_half(&mut self.entries, &sides.table, half.entries, half.bit)?;
        let bounds = Bounds::of(entries.of(&self.entries), claimed.entries);
        let rules = keep(&mut self.rules, rules, claimed.rules, bounds);
        let bounds = Bounds::of(rules.of(&self.rules), claimed.rules);
        let entries = keep(&mut self.entries, entries, claimed.entries, bounds);
        let looked = half.rules.len().saturating_add(half.entries.len());
        let pairs = rules.len().saturating_mul(entries.len());
        if pairs > PAIRS_AT_ONCE
            && let Some(bit) = self.parting(sides, rules, entries)
        {
            self.part(rules, entries, bit)?;
            return Ok(looked);
        }
        for entry in entries.of(&self.entries) {
            push_open(
                sides,
                claimed,
                rules.of(&self.rules),
                *entry,
                &mut self.found,
            )?;
        }
        Ok(looked.saturating_add(pairs))
    }

    /// Puts the two halves at a bit before the others.
    fn part(&mut self, rules: Run, entries: Run, bit: u32) -> Result<(), Memory> {
        for is_one in [true, false] {
            self.halves.push(Half {
                rules,
                entries,
                bit: Some(Bit { place: bit, is_one }),
            })?;
        }
        Ok(())
    }

    /// The bit whose halves leave the fewest pairs to compare, where these are at most seven eighths.
    fn parting(&self, sides: &Sides, rules: Run, entries: Run) -> Option<u32> {
        let of_rules = Shares::of(&sides.list, rules.of(&self.rules));
        let of_entries = Shares::of(&sides.table, entries.of(&self.entries));
        let pairs = of_rules.all.saturating_mul(of_entries.all);
        let mut least = pairs.saturating_sub(pairs / 8);
        let mut best = None;
        for bit in 0..104u32 {
            let left = of_rules.pairs(&of_entries, bit);
            if left < least {
                least = left;
                best = Some(bit);
            }
        }
        best
    }
}

/// How many words ask for a 0 at each bit, and how many for a 1.
#[derive(Clone, Copy)]
struct Shares {
    all: u64,
    zeros: BitCounts,
    ones: BitCounts,
}

impl Shares {
    fn of(side: &Side, places: &[u32]) -> Shares {
        let mut shares = Shares {
            all: places.len() as u64,
            zeros: BitCounts::new(),
            ones: BitCounts::new(),
        };
        for place in places {
            let word = side.word(*place);
            shares.ones.add(word.value);
            shares.zeros.add(word.mask & !word.value);
        }
        shares
    }

    /// How many pairs both halves at the bit leave.
    fn pairs(&self, other: &Shares, bit: u32) -> u64
        requires { bit < 104 }
    {
        let zero = (self.all.saturating_sub(self.ones.count(bit))).saturating_mul(
            other.all.saturating_sub(other.ones.count(bit)),
        );
        let one = (self.all.saturating_sub(self.zeros.count(bit))).saturating_mul(
            other.all.saturating_sub(other.zeros.count(bit)),
        );
        zero.saturating_add(one)
    }
}

/// The places before the limit.
fn places(alloc: Global, limit: u32) -> Result<Vec<u32>, Memory> {
    let mut places = Vec::with_capacity(alloc, limit as usize)?;
    for place in 0..limit {
        places.push(place)?;
    }
    Ok(places)
}

/// Puts those of the run's places whose words match headers with the bit behind the run; the answer is their run.
fn push_half(
    places: &mut Vec<u32>,
    side: &Side,
    run: Run,
    bit: Option<Bit>,
) -> Result<Run, Memory> {
    places.truncate(run.to);
    let from = places.len();
    for k in run.from..run.to {
        let Some(&place) = places.get(k) else {
            break;
        };
        if bit.is_none_or(|bit| bit.may_be_of(&side.word(place))) {
            places.push(place)?;
        }
    }
    Ok(Run {
        from,
        to: places.len(),
    })
}

/// The first place, and the farthest reach, of some words.
#[derive(Clone, Copy)]
struct Bounds {
    first: u32,
    reach: u32,
}

impl Bounds {
    /// The bounds of the words at these places, which rise.
    fn of(places: &[u32], claims: &Claims) -> Bounds {
        let mut bounds = Bounds {
            first: places.first().copied().unwrap_or(u32::MAX),
            reach: 0,
        };
        for place in places {
            bounds.reach = bounds.reach.max(claims.reach(*place));
        }
        bounds
    }
}

/// Keeps of the run, the last one, those that may be open with words of these bounds; the answer is their run.
fn keep(places: &mut Vec<u32>, run: Run, claims: &Claims, bounds: Bounds) -> Run {
    let mut to = run.from;
    for k in run.from..run.to {
        let Some(&place) = places.get(k) else {
            break;
        };
        if place < bounds.reach && bounds.first < claims.reach(place) {
            if let Some(kept) = places.get_mut(to) {
                *kept = place;
            }
            to = to.saturating_add(1);
        }
    }
    places.truncate(to);
    Run { from: run.from, to }
}

/// Puts the rules that are open with the entry behind the other pairs.
fn push_open(
    sides: &Sides,
    claimed: Claimed,
    rules: &[u32],
    entry: u32,
    found: &mut Vec<Pair>,
) -> Result<(), Memory> {
    let word = sides.table.word(entry);
    let name = sides.table.name(entry);
    let reach = claimed.entries.reach(entry);
    for &rule in rules {
        if rule >= reach {
            return Ok(());
        }
        if entry < claimed.rules.reach(rule)
            && sides.list.name(rule) != name
            && Candidate::at(sides, Place::Rule(rule)).meets(sides, &word)
        {
            found.push(Pair { rule, entry })?;
        }
    }
    Ok(())
}
