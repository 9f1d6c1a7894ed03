//! An entry as a line spells it.
ghost use Rattle.std.specs.Prelude.{IsTrue};
ghost use Rattle.table_text.specs.Names.{is_decision};

use ternary_words::Word;

/// A word, and the text of its decision.
#[derive(Clone, Copy)]
pub struct Spelled<'a> {
    pub word: Word,
    pub decision: &'a str,
    pub ghost named: { IsTrue (is_decision decision.now) },
}
