//! A device whose table is replaced whole.
use crate::block::{Block, Placed};
use crate::refusal::BeginRefusal;
use crate::updater::Updater;
use tcam_sim::Device;
use ternary_words::Table;

/// A device whose table is replaced whole.
///
/// The new entries are written in order, beside the old ones, and then the old ones are cleared from the last
/// to the first.
pub type Swapper<V> = Updater<V, Block>;

impl<V: Device> Updater<V, Block> {
    ghost use Rattle.std.specs.Prelude.{◌≡◌, None, Err, Ok, length, replicate, IfOk, IfErr};
    ghost use Rattle.bank_update.specs.Whole.{begin_answer, begun, unsettled};

    /// No table is settled in the device, whose slots are all empty.
    pub fn new(device: V) -> Self
        requires { V.held device ≡ replicate (length (V.held device)) None }
        ensures device { result.device ≡ device }
        ensures state { result.state ≡ unsettled (length (V.held device)) }
    {
        let slots = device.slots();
        Updater::over(Block::none(slots), device)
    }

    /// Begins a swap to the table, and answers how many writes it has: as many as both tables have entries.
    /// One without any is over at once.
    ///
    /// The new entries are to stand directly below the settled ones, at the higher slots, where there is room;
    /// else directly above them. A table that is refused comes back.
    pub fn begin(&mut self, table: Table) -> Result<u64, (Table, BeginRefusal)>
        ensures ok { IfOk result (λ total. begin_answer self.old.state (length table.entries.items) ≡ Ok total) }
        ensures err { IfErr result (λ refused. (refused.0 ≡ table) × (begin_answer self.old.state (length table.entries.items) ≡ Err refused.1)) }
        ensures state { self.new.state ≡ begun self.old.state table.entries.items table.names }
        ensures device { self.new.device ≡ self.old.device }
    {
        if self.stage().is_some() {
            return Err((table, BeginRefusal::Busy));
        }
        let block = self.settled();
        block.stands_together();
        match block.room_for(table.entries.len() as u32) {
            Ok(start) => Ok(self.begin_by(Placed { table, start })),
            Err(refusal) => Err((table, refusal)),
        }
    }
}
