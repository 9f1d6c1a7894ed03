//! A longest common subsequence of the words of two tables, as Hunt and Szymanski find it: pairs of equal words
//! are laid on piles, and each pile leads to a longest chain of pairs that rise in both tables.
ghost use Rattle.std.specs.Prelude.{◌≡◌, ◌≤◌, ◌<◌, ℕ, List, suc, Option, length, slice_get, slice_index, Some, IfOk, OnOk};
ghost use Rattle.slot_patch.specs.Piles.{Follows, laid};
ghost use Rattle.slot_patch.specs.declared.pair.Pair.{Pair as SeenPair};

use crate::pair::{Link, Pair};
use razor_limits::Memory;
use std::alloc::Global;

/// Piles of pairs. For each pile: behind how many new entries the pair on its top stands least, and the link of that
/// pair. The links lead on to a pair of the pile before.
#[derive(Drop)]
pub(crate) struct Piles {
    places: Vec<usize>,
    tops: Vec<usize>,
    links: Vec<Link>,
}

impl Piles {
    ghost use Rattle.std.specs.Prelude.{◌≡◌, ◌-◌, ◌≤◌, ◌<◌, ℕ, suc, [], List, length, IfOk, OnOk};
    ghost use Rattle.ternary_words.specs.declared.entry.Entry.{Entry as SeenEntry};
    ghost use Rattle.slot_patch.specs.Piles.{AreLaid, AreLowered, AreStacked, IsTaken, top_before};
    ghost use Rattle.slot_patch.specs.Sharing.{AreShared, HaveOneWordAt};

    /// No pile.
    pub(crate) fn none(alloc: Global) -> Piles
        ensures places { result.places.items ≡ [] }
        ensures stacked { (old new : List SeenEntry) → AreStacked old new (length old) result }
    {
        Piles {
            places: Vec::new(alloc),
            tops: Vec::new(alloc),
            links: Vec::new(alloc),
        }
    }

    /// Lays a pair, behind whose new entry so many others stand, on the first pile whose place isn't below that.
    pub(crate) fn lay(&mut self, place: usize, pair: Pair) -> Result<(), Memory>
        requires { length self.old.tops.items ≡ length self.old.places.items }
        ensures lowered { OnOk result (AreLowered self.old.places.items self.new.places.items) }
        ensures taken { OnOk result (IsTaken place self.old.places.items self.new.places.items) }
        ensures laid { (old new : List SeenEntry) (limit : ℕ) → AreLaid old new pair.old limit self.old → place < limit → HaveOneWordAt old new pair.old pair.new →
            place ≡ length new - suc pair.new → OnOk result (AreLaid old new pair.old place self.new) }
    {
        let pile = pile_for(&self.places, place);
        let behind = self.top_before(pile);
        let link = self.links.len();
        self.links.push(Link { pair, behind })?;
        lay_at(&mut self.places, pile, place)?;
        lay_at(&mut self.tops, pile, link)?;
        Ok(())
    }

    /// The link on top of the pile before this one; none before the first.
    fn top_before(&self, pile: usize) -> Option<usize>
        requires { pile ≤ length self.now.tops.items }
        ensures { result ≡ top_before self.now.tops.items pile }
    {
        if pile == 0 {
            return None;
        }
        Some(self.tops[pile - 1])
    }

    /// The pairs to which the last pile leads: as many as there are piles.
    pub(crate) fn pairs(&self, alloc: Global) -> Result<Vec<Pair>, Memory>
        requires { length self.now.tops.items ≡ length self.now.places.items }
        ensures shared { (old new : List SeenEntry) → AreStacked old new 0 self.now → IfOk result (λ pairs. AreShared old new 0 0 pairs.items) }
        ensures many { (old new : List SeenEntry) → AreStacked old new 0 self.now → IfOk result (λ pairs. length pairs.items ≡ length self.now.places.items) }
    {
        let piles = self.places.len();
        if piles == 0 {
            return Ok(Vec::new(alloc));
        }
        let found = follow(alloc, &self.links, self.tops[piles - 1], piles)?;
        Ok(found)
    }
}

/// The first pile whose place isn't below this one, or the one behind all.
fn pile_for(places: &[usize], place: usize) -> usize
    ensures within { result ≤ length places.now }
    ensures below { (k : ℕ) → suc k ≡ result → slice_index places.now k < place }
    ensures above { result < length places.now → place ≤ slice_index places.now result }
{
    let mut low = 0;
    let mut high = places.len();
    while low < high {
        let middle = low + (high - low) / 2;
        if places[middle] < place {
            low = middle + 1;
        } else {
            high = middle;
        }
    }
    low
}

/// Puts the item at a place in the list, or directly behind it.
fn lay_at(items: &mut Vec<usize>, place: usize, item: usize) -> Result<(), Memory>
    requires { place ≤ length items.old.items }
    ensures { OnOk result (items.new.items ≡ laid items.old.items place item) }
{
    if place == items.len() {
        items.push(item)?;
    } else {
        items[place] = item;
    }
    Ok(())
}

/// The pairs from a link on.
fn follow(alloc: Global, links: &[Link], first: usize, count: usize) -> Result<Vec<Pair>, Memory>
    ensures { (pairs : List SeenPair) → Follows links.now (Some first) pairs → length pairs ≡ count → IfOk result (λ found. found.items ≡ pairs) }
{
    let mut found = Vec::new(alloc);
    let mut at = Some(first);
    for _ in 0..count {
        let Some(number) = at else {
            return Ok(found);
        };
        let Some(link) = link_at(links, number) else {
            return Ok(found);
        };
        found.push(link.pair)?;
        at = link.behind;
    }
    Ok(found)
}

/// The link with this number, if there is one.
fn link_at(links: &[Link], number: usize) -> Option<Link>
    ensures { result ≡ slice_get links.now number }
{
    links.get(number).copied()
}
