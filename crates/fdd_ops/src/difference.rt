//! The least header on which two diagrams differ.
ghost use Rattle.std.specs.Prelude.{◌≡◌, ◌≢◌, MatchOption};
ghost use Rattle.field_boxes.specs.Headline.Fields.{stated};
ghost use Rattle.node_store.specs.Diagram.{level_of, answer};
ghost use Rattle.field_boxes.specs.Alike.{AreAlike, IsFirstDifference};

use crate::parting::first_parting;
use field_boxes::Header;
use node_store::{NodeId, Store};

/// The least header that two diagrams decide differently, none where they decide all headers alike.
///
/// Headers are ordered by the stated order of the fields, the source address first. The call takes no
/// memory, and no more time than one pass over the edges of five pairs of nodes: two numbers of one
/// level are two functions, so the first value that leads to different numbers begins a difference,
/// and no step is ever taken back.
pub fn least_difference(store: &Store, a: NodeId, b: NodeId) -> Option<Header>
    requires left { level_of store.now a.0 ≡ stated }
    requires right { level_of store.now b.0 ≡ stated }
    ensures { MatchOption result (AreAlike (answer store.now a.0) (answer store.now b.0))
        (λ header. IsFirstDifference (answer store.now a.0) (answer store.now b.0) header.values) }
{
    if a == b {
        return None;
    }
    Some(first_header(store, a, b))
}

/// The least header that two different diagrams decide differently.
fn first_header(store: &Store, a: NodeId, b: NodeId) -> Header
    requires left { level_of store.now a.0 ≡ stated }
    requires right { level_of store.now b.0 ≡ stated }
    requires differ { a.0 ≢ b.0 }
    ensures { IsFirstDifference (answer store.now a.0) (answer store.now b.0) result.values }
{
    store.same_answers();
    let source = first_parting(store, a, b);
    let destination = first_parting(store, source.left, source.right);
    let source_port = first_parting(store, destination.left, destination.right);
    let destination_port = first_parting(store, source_port.left, source_port.right);
    let protocol = first_parting(store, destination_port.left, destination_port.right);
    Header {
        values: [
            source.value,
            destination.value,
            source_port.value,
            destination_port.value,
            protocol.value,
        ],
    }
}
