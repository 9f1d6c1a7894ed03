//! The words of a call of the program.
ghost use Rattle.std.specs.Prelude.{◌≡◌, ◌∷◌, ◌++◌, [], map, OnOk, OnErr};
ghost use Rattle.std.specs.String.{string_bytes};

use razor_base::Memory;
use std::alloc::Global;
use std::marker::Model;

/// The words after the program's name, in order.
#[derive(Drop)]
pub struct Words {
    alloc: Global,
    words: Vec<String>,
}

impl Model for Words {
    ghost use Rattle.std.specs.Prelude.{ℕ, List, map};
    ghost use Rattle.std.specs.String.{string_bytes};

    ghost Value = { List (List ℕ) };

    ghost view = { λ w. map string_bytes w.words.items };
}

impl Words {
    /// No word.
    pub fn new(alloc: Global) -> Self
        ensures { result ≡ [] }
    {
        Words {
            alloc,
            words: Vec::new(alloc),
        }
    }

    /// Puts the word behind the others.
    pub fn push(&mut self, word: &str) -> Result<(), Memory>
        ensures ok { OnOk result (self.new ≡ self.old ++ word.now ∷ []) }
        ensures err { OnErr result (self.new ≡ self.old) }
    {
        let word = String::from_str(self.alloc, word)?;
        self.words.push(word)?;
        Ok(())
    }

    /// The words.
    pub fn texts(&self) -> &[String]
        ensures { map string_bytes result.now ≡ self.now }
    {
        &self.words
    }
}
