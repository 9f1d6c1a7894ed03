//! Lists of entries, each once.
ghost use Rattle.std.specs.Prelude.{◌≡◌, []};
ghost use Rattle.redundancy_laws.specs.Built.{row_at};
ghost use Rattle.redundancy_laws.specs.Rows.{last_row};

use indexmap::IndexSet;
use razor_limits::Memory;
use std::alloc::Global;
use ternary_words::Entry;

/// The entries of a block, each with one more interval in front.
#[derive(Clone, Copy, Debug, PartialEq, Eq, Hash)]
pub struct ListedRun {
    pub lo: u32,
    pub hi: u32,
    pub block: usize,
}

/// An item of a list.
#[derive(Clone, Copy, Debug, PartialEq, Eq, Hash)]
pub enum Item {
    /// One entry with no field left, by its decision.
    Last(u32),
    Behind(ListedRun),
}

/// A list with an item behind it.
#[derive(Clone, Copy, Debug, PartialEq, Eq, Hash)]
pub struct Link {
    /// The place of the last link of the list before the item; none where that is empty.
    pub before: Option<usize>,
    pub item: Item,
}

/// Lists, known by the places of their last links, and for each the number of its block, if it is known.
#[derive(Drop)]
pub struct Lists {
    pub links: IndexSet<Link>,
    pub known: Vec<Option<usize>>,
}

impl Lists {
    ghost use Rattle.std.specs.Prelude.{◌≡◌, ◌<◌, ◌++◌, ◌∷◌, [], true, false, Some, length, map, slice_get, IfOk, IfSome};
    ghost use Rattle.redundancy.specs.declared.blocks.Blocks.{Blocks};
    ghost use Rattle.redundancy.specs.Blocks.{rows_of};
    ghost use Rattle.redundancy_laws.specs.Built.{row_at};
    ghost use Rattle.redundancy.specs.Lists.{AreLists, FitsItem, IsBefore, IsListed, ListsGrow, item_rows, list_rows};

    /// No lists.
    pub fn new(alloc: Global) -> Lists
        ensures { (blocks : Blocks) → AreLists blocks result }
    {
        Lists {
            links: IndexSet::new(alloc),
            known: Vec::new(alloc),
        }
    }

    /// The list with the item behind it.
    pub fn with(&mut self, before: Option<usize>, item: Item) -> Result<usize, Memory>
        ensures { (blocks : Blocks) → AreLists blocks self.old → IsBefore (length self.old.links.keys) before → FitsItem (length blocks.blocks.items) item →
            IfOk result (λ place. IsListed blocks self.old self.new (list_rows (rows_of blocks.blocks.items) self.old.links.keys before ++ item_rows (rows_of blocks.blocks.items) item) (Some place)) }
    {
        let (place, added) = self.place(Link { before, item })?;
        if added {
            self.known.push(None)?;
        }
        Ok(place)
    }

    /// The place of the link, and whether it was added: then nothing is known of it yet.
    fn place(&mut self, link: Link) -> Result<(usize, bool), Memory>
        ensures found { IfOk result (λ r. slice_get self.new.links.keys r.0 ≡ Some link) }
        ensures known { IfOk result (λ r. r.1 ≡ false → self.new.links.keys ≡ self.old.links.keys) }
        ensures added { IfOk result (λ r. r.1 ≡ true → self.new.links.keys ≡ self.old.links.keys ++ link ∷ []) }
        ensures others { self.new.known.items ≡ self.old.known.items }
    {
        let (place, added) = self.links.insert_full(link)?;
        Ok((place, added))
    }

    /// The list of the entries with no field left.
    pub fn lasts(&mut self, entries: &[Entry]) -> Result<Option<usize>, Memory>
        ensures { (blocks : Blocks) → AreLists blocks self.old → IfOk result (λ list. IsListed blocks self.old self.new (map (row_at []) entries.now) list) }
    {
        let mut list = None;
        for entry in entries {
            let place = self.with(list, Item::Last(decision_of(entry)))?;
            list = Some(place);
        }
        Ok(list)
    }

    /// The block of the list, if it is known.
    pub fn known_of(&self, list: Option<usize>) -> Option<usize>
        ensures { (blocks : Blocks) → AreLists blocks self.now → IsBefore (length self.now.links.keys) list →
            IfSome result (λ number. (number < length blocks.blocks.items) × (rows_of blocks.blocks.items number ≡ list_rows (rows_of blocks.blocks.items) self.now.links.keys list)) }
    {
        let place = list?;
        let known = self.known.get(place)?;
        *known
    }

    /// Keeps the block of the list.
    pub fn keep_list(&mut self, list: Option<usize>, number: usize)
        ensures { (blocks : Blocks) → AreLists blocks self.old → IsBefore (length self.old.links.keys) list → number < length blocks.blocks.items →
            rows_of blocks.blocks.items number ≡ list_rows (rows_of blocks.blocks.items) self.old.links.keys list → ListsGrow blocks blocks self.old self.new }
    {
        if let Some(place) = list
            && place < self.known.len()
        {
            self.keep(place, number);
        }
    }

    /// The same of a list that isn't empty.
    fn keep(&mut self, place: usize, number: usize)
        requires { place < length self.old.known.items }
        ensures { (blocks : Blocks) → AreLists blocks self.old → number < length blocks.blocks.items →
            rows_of blocks.blocks.items number ≡ list_rows (rows_of blocks.blocks.items) self.old.links.keys (Some place) → ListsGrow blocks blocks self.old self.new }
    {
        self.known[place] = Some(number);
    }
}

/// The decision of an entry of which no field is left.
pub(crate) fn decision_of(entry: &Entry) -> u32
    ensures { row_at [] entry.now ≡ last_row result }
{
    entry.decision
}
