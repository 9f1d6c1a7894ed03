//! The lists of a memory's tables, as they were at their commits.
use crate::listing::Listing;
use bank_update::Stage;
use std::alloc::Global;
use std::marker::Model;

/// The list of the settled table, and of the pending one if a swap is pending: copies that their commits made.
#[derive(Drop)]
pub(crate) struct TableLists {
    settled: Listing,
    pending: Option<Listing>,
}

impl Model for TableLists {
    ghost use Rattle.edit_session.specs.Machine.{Copies};

    ghost Value = { Copies };

    ghost use Rattle.edit_session.specs.TableLists.{copies_of};

    ghost view = { copies_of };
}

impl TableLists {
    ghost use Rattle.std.specs.Prelude.{◌≡◌};
    ghost use Rattle.edit_session.specs.Machine.{copies_at, copies_begun, no_copies, settled_copies};

    /// The settled table is the empty one, of the empty list.
    pub(crate) fn new(alloc: Global) -> Self
        ensures { result ≡ no_copies }
    {
        TableLists {
            settled: Listing::empty(alloc),
            pending: None,
        }
    }

    /// A swap of so many writes to a table of the list has begun.
    pub(crate) fn begin(&mut self, list: Listing, total: u64)
        ensures { self.new ≡ copies_begun list total self.old }
    {
        if total == 0 {
            self.settled = list;
            self.pending = None;
            return;
        }
        self.pending = Some(list);
    }

    /// The swap has reached the stage: with the last write the pending table settles, and going back the swap is
    /// over when none is left.
    pub(crate) fn reach(&mut self, stage: Stage)
        ensures { self.new ≡ copies_at self.old stage }
    {
        if stage.back {
            if stage.done == 0 {
                self.pending = None;
            }
            return;
        }
        if stage.done == stage.total {
            self.settle();
        }
    }

    /// The list of the pending table becomes that of the settled one.
    fn settle(&mut self)
        ensures { self.new ≡ settled_copies self.old }
    {
        if let Some(list) = self.pending.take() {
            self.settled = list;
        }
    }
}
