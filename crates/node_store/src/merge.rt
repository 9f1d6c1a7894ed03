//! Edges with equal neighbours merged.
ghost use Rattle.std.specs.Prelude.{◌≡◌, ◌+◌, ◌<◌, ◌∷◌, length, drop, slice_index_or, if◌then◌else◌, IfOk};
ghost use Rattle.node_store.specs.Edges.{merged};
ghost use Rattle.node_store.specs.declared.edge.Edge.{Edge};

use crate::edge::Edge;
use crate::node::Edges;
use razor_limits::Memory;
use smallvec::SmallVec;
use std::alloc::Global;

/// Whether the edge at the place stays: there is no next one, or it leads elsewhere.
fn stays(edges: &[Edge], place: usize) -> bool
    requires { place < length edges.now }
    ensures { (d : Edge) → merged (drop place edges.now) ≡
        (if result then slice_index_or edges.now place d ∷ merged (drop (place + 1) edges.now) else merged (drop (place + 1) edges.now)) }
{
    place + 1 == edges.len() || edges[place + 1].to != edges[place].to
}

/// How many edges stay.
fn count(edges: &[Edge]) -> usize
    ensures { result ≡ length (merged edges.now) }
{
    let mut count = 0;
    for place in 0..edges.len() {
        if stays(edges, place) {
            count += 1;
        }
    }
    count
}

/// The edges with equal neighbours merged, in room for just so many.
pub(crate) fn merge(alloc: Global, edges: &[Edge]) -> Result<Edges, Memory>
    ensures { IfOk result (λ kept. kept.items ≡ merged edges.now) }
{
    let count = count(edges);
    if count == edges.len() {
        let all = SmallVec::from_slice(alloc, edges)?;
        return Ok(all);
    }
    let mut kept = SmallVec::with_capacity(alloc, count)?;
    for (place, edge) in edges.iter().enumerate() {
        if stays(edges, place) {
            kept.push(*edge)?;
        }
    }
    Ok(kept)
}
