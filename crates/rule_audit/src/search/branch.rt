//! Where the values of a field lead from all diagrams around a rule.

use crate::search::around::{Around, Nodes};
use crate::search::least::ShortSearch;
use field_boxes::greatest;
use node_store::{NodeId, Store, edge_at};
use razor_limits::Memory;
use smallvec::SmallVec;

/// The diagrams at some values of a field, up to `hi`.
#[derive(Drop)]
pub(crate) struct Branch {
    pub around: Around,
    pub hi: u32,
}

/// The children of some nodes at the values of their field up to `hi`, but for those that answer nothing.
#[derive(Drop)]
struct Children {
    hi: u32,
    children: Nodes,
}

impl ShortSearch {
    ghost use Rattle.std.specs.Prelude.{◌≤◌, ◌<◌, true, length, drop, IfOk, OnOk};
    ghost use Rattle.field_boxes.specs.Headline.Fields.{stated};
    ghost use Rattle.field_boxes.specs.Fields.{greatest_of};
    ghost use Rattle.rule_audit.specs.Search.{AreAround, StandAtLevel, GainsChild, AreChildren, IsBranch};
    ghost use Rattle.rule_audit.specs.Marks.{AreMarks};

    /// The diagrams at a value of the field, and at those after it that lead the same way.
    pub fn step(
        &self,
        store: &Store,
        depth: usize,
        around: &Around,
        value: u32,
    ) -> Result<Branch, Memory>
        requires depth { depth < 5 }
        requires value { value ≤ greatest_of depth }
        requires around { AreAround store.now (drop depth stated) around.now }
        requires nothing { AreMarks store.now true self.now.nothing.items }
        ensures { IfOk result (λ step. IsBranch store.now depth around.now value step) }
    {
        store.same_answers();
        let edge = edge_at(store.edges(around.here), value);
        if self.is_nothing(edge.to) {
            let around = Around {
                here: edge.to,
                before: SmallVec::new(self.alloc),
                behind: SmallVec::new(self.alloc),
            };
            return Ok(Branch {
                around,
                hi: edge.hi,
            });
        }
        let before = self.row(store, depth, around.before.as_slice(), value)?;
        let behind = self.row(store, depth, around.behind.as_slice(), value)?;
        let hi = edge.hi.min(before.hi).min(behind.hi);
        let around = Around {
            here: edge.to,
            before: before.children,
            behind: behind.children,
        };
        Ok(Branch { around, hi })
    }

    /// The children of the nodes at a value of the field, and at those after it that lead the same way.
    fn row(
        &self,
        store: &Store,
        depth: usize,
        ids: &[NodeId],
        value: u32,
    ) -> Result<Children, Memory>
        requires depth { depth < 5 }
        requires value { value ≤ greatest_of depth }
        requires stand { StandAtLevel store.now (drop depth stated) ids.now }
        requires nothing { AreMarks store.now true self.now.nothing.items }
        ensures { IfOk result (λ row. AreChildren store.now depth ids.now value row.hi row.children.items) }
    {
        store.same_answers();
        let mut hi = greatest(depth);
        let mut children = SmallVec::new(self.alloc);
        for id in ids {
            let edge = edge_at(store.edges(*id), value);
            hi = hi.min(edge.hi);
            self.add(store, &mut children, edge.to)?;
        }
        Ok(Children { hi, children })
    }

    /// Counts the node among the children, unless it answers nothing.
    fn add(&self, store: &Store, children: &mut Nodes, id: NodeId) -> Result<(), Memory>
        requires id { id.0 < length store.now }
        requires nothing { AreMarks store.now true self.now.nothing.items }
        ensures { OnOk result (GainsChild store.now children.old.items children.new.items id.0) }
    {
        let _store = store;
        if self.is_nothing(id) {
            return Ok(());
        }
        children.push(id)?;
        Ok(())
    }
}
