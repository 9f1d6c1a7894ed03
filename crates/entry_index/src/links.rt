//! The order of slots.

use razor_limits::Memory;
use std::alloc::Global;

/// Each slot's neighbours in the order of the rows. Slot 0 stands before the first and behind the last one.
#[derive(Drop)]
pub(crate) struct Links {
    links: Vec<Link>,
}

/// The slots in front of a slot and behind it.
#[derive(Clone, Copy)]
pub(crate) struct Link {
    pub before: usize,
    pub behind: usize,
}

impl Links {
    /// So many slots, none of them in the order.
    pub fn new(alloc: Global, slots: usize) -> Result<Links, Memory> {
        Ok(Links {
            links: vec![in alloc; Link {
                before: 0,
                behind: 0
            }; slots]?,
        })
    }

    /// The neighbours of a slot.
    #[inline]
    pub fn of(&self, slot: usize) -> Link {
        match self.links.get(slot) {
            Some(link) => *link,
            None => Link {
                before: 0,
                behind: 0,
            },
        }
    }

    /// Puts a slot into the order right before another.
    pub fn put(&mut self, slot: usize, behind: usize) {
        let before = self.of(behind).before;
        self.join(before, slot);
        self.join(slot, behind);
    }

    /// Takes a slot out of the order.
    pub fn take(&mut self, slot: usize) {
        let link = self.of(slot);
        self.join(link.before, link.behind);
    }

    /// Has one slot follow another.
    fn join(&mut self, before: usize, behind: usize) {
        if let Some(link) = self.links.get_mut(before) {
            link.behind = behind;
        }
        if let Some(link) = self.links.get_mut(behind) {
            link.before = before;
        }
    }

    /// The slots in order.
    pub fn in_order(&self) -> InOrder<'_> {
        InOrder {
            links: self,
            at: 0,
            left: self.links.len(),
        }
    }
}

/// The slots in order.
#[derive(Drop)]
pub(crate) struct InOrder<'a> {
    links: &'a Links,
    at: usize,
    /// There are no more than this.
    left: usize,
}

impl Iterator for InOrder<'_> {
    type Item = usize;

    ghost use Rattle.std.specs.Iterator.{at_most};

    ghost remaining = { λ walk. at_most walk.left };

    #[inline]
    fn next(&mut self) -> Option<usize> {
        if self.left == 0 {
            return None;
        }
        self.left -= 1;
        self.at = self.links.of(self.at).behind;
        if self.at == 0 { None } else { Some(self.at) }
    }
}
