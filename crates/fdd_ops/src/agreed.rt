//! What a walk over pairs of nodes has found.

use crate::pair::Pair;
use razor_limits::Memory;
use std::alloc::Global;
use std::collections::HashSet;

/// The pairs that a walk has been through and found to agree.
#[derive(Drop)]
pub(crate) struct Agreed {
    pairs: HashSet<Pair>,
}

impl Agreed {
    ghost use Rattle.std.specs.Prelude.{◌≡◌, List, IsTrue, OnOk};
    ghost use Rattle.std.specs.Bool.{OnTrue};
    ghost use Rattle.node_store.specs.Diagram.{Node};
    ghost use Rattle.fdd_ops.specs.declared.question.Question.{Question};
    ghost use Rattle.fdd_ops.specs.Agreement.{Agree};
    ghost use Rattle.fdd_ops.specs.Agreed.{is_kept, AreAgreed, KeepsPairs};

    /// No pairs.
    pub fn new(alloc: Global) -> Agreed
        ensures { (question : Question) (nodes : List Node) → AreAgreed question nodes result }
    {
        Agreed {
            pairs: HashSet::new(alloc),
        }
    }

    /// Whether the walk has been through the pair, which then agrees.
    pub fn has(&self, pair: Pair) -> bool
        ensures kept { result ≡ is_kept self.now pair }
        ensures agree { (question : Question) (nodes : List Node) → AreAgreed question nodes self.now →
            OnTrue result (Agree question nodes pair.which.0 pair.answers.0) }
    {
        self.pairs.contains(&pair)
    }

    /// Keeps a pair that agrees, and all that was kept before; nothing more after a refusal of memory.
    pub fn keep(&mut self, pair: Pair) -> Result<(), Memory>
        ensures kept { OnOk result (IsTrue (is_kept self.new pair)) }
        ensures agree { (question : Question) (nodes : List Node) → AreAgreed question nodes self.old →
            Agree question nodes pair.which.0 pair.answers.0 → AreAgreed question nodes self.new }
        ensures earlier { KeepsPairs self.old self.new }
    {
        self.pairs.insert(pair)?;
        Ok(())
    }
}
