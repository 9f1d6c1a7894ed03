//! One row of nodes: where the values of a field from one value on lead from each of them.
ghost use Rattle.std.specs.Prelude.{◌≡◌, ◌≤◌, ◌<◌, ◌∷◌, ℕ, List, IfOk, OnOk};
ghost use Rattle.std.specs.List.{AllZip};
ghost use Rattle.field_boxes.specs.Fields.{greatest_of};
ghost use Rattle.node_store.specs.Levels.{HasField, next, top_of};
ghost use Rattle.node_store.specs.Edges.{AreFull, child_of};
ghost use Rattle.node_store.specs.Diagram.{edges_of};
ghost use Rattle.node_store.specs.Store.{LeadTo};
ghost use Rattle.field_order.specs.Fronts.{ArePassed, ArePlaces, IsCell, IsEdgeAt};

use field_boxes::greatest;
use node_store::{Edge, Store, edge_at};
use razor_limits::Memory;
use smallvec::SmallVec;

/// The edges of most nodes are few.
pub(crate) type Edges = SmallVec<Edge, 6>;

/// Puts edges to where the values from `lo` on lead in place of the cells, one for each of the edges, and answers up to
/// which value they do: as many as lead alike from each of the nodes to which the edges lead.
///
/// The nodes read the field first. For each the place is kept of its edge that holds `lo`, from where the row behind
/// this one goes on.
pub(crate) fn fill_row(
    store: &Store,
    field: u8,
    edges: &[Edge],
    places: &mut [usize],
    cells: &mut Edges,
    lo: u32,
) -> Result<u32, Memory>
    requires field { field < 5 }
    requires nodes { (rest : List ℕ) × HasField (field ∷ rest) × LeadTo store.now (field ∷ rest) edges.now }
    requires places { ArePlaces store.now edges.now places.old lo }
    requires within { lo ≤ greatest_of field }
    ensures low { IfOk result (λ hi. lo ≤ hi) }
    ensures high { IfOk result (λ hi. hi ≤ greatest_of field) }
    ensures cells { IfOk result (λ hi. AllZip (IsCell store.now lo hi) edges.now cells.new.items) }
    ensures nodes { OnOk result ((rest : List ℕ) → HasField (field ∷ rest) → LeadTo store.now (field ∷ rest) edges.now → LeadTo store.now rest cells.new.items) }
    ensures places { ArePlaces store.now edges.now places.new lo }
{
    store.same_answers();
    let mut hi = greatest(usize::from(field));
    cells.clear();
    for (index, edge) in edges.iter().enumerate() {
        let under = store.edges(edge.to);
        let place = place_from(under, places[index], lo);
        places[index] = place;
        let cell = under[place];
        hi = hi.min(cell.hi);
        cells.push(Edge {
            hi: edge.hi,
            to: cell.to,
        })?;
    }
    Ok(hi)
}

/// The place of the edge that holds the value, where all edges before `from` end below it.
fn place_from(edges: &[Edge], from: usize, value: u32) -> usize
    requires full { (greatest : ℕ) × AreFull greatest edges.now × (value ≤ greatest) }
    requires passed { ArePassed edges.now from value }
    ensures passed { ArePassed edges.now result value }
    ensures edge { (greatest : ℕ) → AreFull greatest edges.now → value ≤ greatest → IsEdgeAt greatest edges.now value result }
{
    let mut place = from;
    while edges[place].hi < value {
        place += 1;
    }
    place
}

/// Puts edges in place of the row, which lead from each value where the value's cell leads from it.
pub(crate) fn splice_row(
    store: &Store,
    level: &[u8],
    cells: &[Edge],
    row: &mut Edges,
) -> Result<(), Memory>
    requires level { HasField level.now }
    requires full { AreFull (top_of level.now) cells.now }
    requires nodes { LeadTo store.now level.now cells.now }
    ensures full { OnOk result (AreFull (top_of level.now) row.new.items) }
    ensures nodes { OnOk result (LeadTo store.now (next level.now) row.new.items) }
    ensures leads { OnOk result ((u : ℕ) → u ≤ top_of level.now → child_of row.new.items u ≡ child_of (edges_of store.now (child_of cells.now u)) u) }
{
    store.same_answers();
    let top = u64::from(greatest_in(level));
    row.clear();
    let mut place = 0;
    let mut filled = 0u64;
    while filled <= top {
        let value = filled as u32;
        let next = place_from(cells, place, value);
        let cell = cells[next];
        let under = store.edges(cell.to);
        let edge = edge_at(under, value);
        let hi = cell.hi.min(edge.hi);
        row.push(Edge { hi, to: edge.to })?;
        place = next;
        filled = u64::from(hi) + 1;
    }
    Ok(())
}

/// The greatest value of the level's first field.
pub(crate) fn greatest_in(level: &[u8]) -> u32
    requires { HasField level.now }
    ensures { result ≡ top_of level.now }
{
    greatest(usize::from(level[0]))
}
