//! Room for what is known of the nodes of a store.
ghost use Rattle.std.specs.Prelude.{◌≡◌, ◌≤◌, ◌++◌, List, OnOk, length, false};
ghost use Rattle.table_compose.specs.Room.{IsPadded, IsLonger};

use crate::row::Row;
use razor_limits::Memory;
use std::alloc::Global;

/// Adds marks that aren't set, up to so many.
pub(crate) fn more_marks(marks: &mut Vec<bool>, count: usize) -> Result<(), Memory>
    ensures padded { IsPadded false marks.old.items marks.new.items }
    ensures room { OnOk result (count ≤ length marks.new.items) }
{
    let count = marks.len().max(count);
    marks.resize(count, false)?;
    Ok(())
}

/// Adds noughts, up to so many numbers.
pub(crate) fn more_numbers(numbers: &mut Vec<u128>, count: usize) -> Result<(), Memory>
    ensures padded { IsPadded 0 numbers.old.items numbers.new.items }
    ensures room { OnOk result (count ≤ length numbers.new.items) }
{
    let count = numbers.len().max(count);
    numbers.resize(count, 0)?;
    Ok(())
}

/// Adds lists of no rows, up to so many.
pub(crate) fn more_lists(
    alloc: Global,
    lists: &mut Vec<Vec<Row>>,
    count: usize,
) -> Result<(), Memory>
    ensures longer { IsLonger lists.old.items lists.new.items }
    ensures room { OnOk result (count ≤ length lists.new.items) }
{
    while lists.len() < count {
        lists.push(Vec::new(alloc))?;
    }
    Ok(())
}
