//! What is asked of two diagrams.

use field_boxes::Span;

/// A box, the answer of the one diagram that is meant, and what the other one should decide there.
#[derive(Clone, Copy)]
pub(crate) struct Question {
    pub spans: [Span; 5],
    pub index: u32,
    pub decision: u32,
}

impl Question {
    ghost use Rattle.std.specs.Prelude.{◌≡◌, ◌&&◌, ℕ, List, ◌∷◌};
    ghost use Rattle.field_boxes.specs.Headline.Classifier.{interval_holds};
    ghost use Rattle.field_boxes.specs.Spans.{interval_of};
    ghost use Rattle.node_store.specs.Levels.{HasField, next};
    ghost use Rattle.fdd_ops.specs.Agreement.{rest_holds};

    /// The box's span of the level's first field.
    pub fn span(&self, level: &[u8]) -> Span
        requires { HasField level.now }
        ensures { (v : ℕ) (values : List ℕ) → rest_holds self.now.spans level.now (v ∷ values) ≡
            (interval_holds v (interval_of result) && rest_holds self.now.spans (next level.now) values) }
    {
        self.spans[usize::from(level[0])]
    }
}
