//! The cheapest prefix list of many pieces.

use crate::pieces::{pieces, weights};
use anyhow::{Result, anyhow};
use prefix_min::{Cheapest, minimise};
use std::alloc::Global;

/// The bits of the field.
const WIDTH: u8 = 32;

/// Cuts a field into so many pieces, and prints how many rows their cheapest list has, and its cost.
pub fn run(rt: &(impl Print + AllocGlobal), count: u32) -> Result<()> {
    let found = cheapest(rt.alloc(), count)?;
    let rows = found.rows.len();
    let cost = found.cost;
    println!(rt; "minimise {count} rows {rows} cost {cost}")?;
    Ok(())
}

/// The cheapest list of so many pieces.
pub fn cheapest(alloc: Global, count: u32) -> Result<Cheapest> {
    let weights = weights(alloc, count)?;
    let pieces = pieces(alloc, &weights)?;
    minimise(alloc, &pieces, &weights, WIDTH).map_err(|_refused| anyhow!("out of memory"))
}
