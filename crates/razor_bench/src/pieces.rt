//! A field cut into pieces of nearly equal length.
ghost use Rattle.std.specs.Prelude.{◌≡◌, ◌≤◌, ◌<◌, ◌^◌, [], ◌∷◌, ◌++◌, length, map, IfOk, OnOk};
ghost use Rattle.razor_bench.specs.Cut.{IsCut};

use anyhow::{Result, ensure};
use prefix_min::{Piece, laws};
use std::alloc::Global;

/// The values of a field of 32 bits.
const VALUES: u64 = 1 << 32;

/// The labels' weights go round from 1 to this.
const GREATEST_WEIGHT: u128 = 7;

/// A weight for each of so many labels, round from 1 to 7.
pub fn weights(alloc: Global, count: u32) -> Result<Vec<u128>>
    ensures { IfOk result (λ w. length w.items ≡ count) }
{
    let mut weights = Vec::with_capacity(alloc, count as usize)?;
    for label in 0..count {
        weights.push(u128::from(label) % GREATEST_WEIGHT + 1)?;
    }
    Ok(weights)
}

/// A piece for each label, which together are the whole field.
pub fn pieces(alloc: Global, weights: &[u128]) -> Result<Vec<Piece>>
    ensures { IfOk result (λ p. IsCut weights.now (2 ^ 32) p.items) }
{
    let count = u32::try_from(weights.len())?;
    let mut pieces = Vec::with_capacity(alloc, weights.len())?;
    let mut start = 0u64;
    for label in 0..count {
        let end = (u64::from(label) + 1) * VALUES / u64::from(count);
        extend(&mut pieces, weights, label, start, end)?;
        start = end;
    }
    ensure!(start == VALUES, "the pieces end at {start}");
    Ok(pieces)
}

/// Adds the piece of the label, from `start` to just below `end`.
fn extend(pieces: &mut Vec<Piece>, weights: &[u128], label: u32, start: u64, end: u64) -> Result<()>
    requires { IsCut weights.now start pieces.old.items }
    ensures cut { OnOk result (IsCut weights.now end pieces.new.items) }
    ensures label { OnOk result (map (λ p. p.label) pieces.new.items ≡ map (λ p. p.label) pieces.old.items ++ label ∷ []) }
{
    ensure!(start < end, "an empty piece at {start}");
    ensure!(end <= VALUES, "a piece that ends at {end}");
    ensure!(
        (label as usize) < weights.len(),
        "no weight for the label {label}"
    );
    let weight = weights[label as usize];
    ensure!(
        weight <= GREATEST_WEIGHT,
        "the label {label} weighs {weight}"
    );
    laws::pieces_grow();
    let hi = (end - 1) as u32;
    pieces.push(Piece { hi, label })?;
    Ok(())
}
