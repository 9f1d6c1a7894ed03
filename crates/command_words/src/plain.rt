//! The plain words that are kept.
ghost use Rattle.std.specs.Prelude.{◌≤◌};

/// The most plain words that are kept: as many as a command may have.
const MOST: usize = 9;

/// Up to nine words, which take no memory of their own.
#[derive(Clone, Copy)]
pub struct PlainWords<'a> {
    words: [&'a str; 9],
    count: usize,
    ghost within: { count ≤ 9 },
}

impl<'a> PlainWords<'a> {
    ghost use Rattle.std.specs.Prelude.{◌≡◌, ◌≤◌, ◌++◌, ◌∷◌, [], List, ℕ, map, length};
    ghost use Rattle.std.specs.Option.{option_map};
    ghost use Rattle.std.specs.String.{string_bytes};
    ghost use Rattle.command_words.specs.PlainWords.{plain_seen};
    ghost use Rattle.command_words.specs.Spelling.{few_words};

    /// No words.
    pub(crate) fn new() -> PlainWords<'a>
        ensures { plain_seen result ≡ [] }
    {
        PlainWords {
            words: [""; 9],
            count: 0,
        }
    }

    /// The words, in order.
    pub fn as_slice(&self) -> &[&'a str]
        ensures words { map (λ word. word.now) result.now ≡ plain_seen self.now }
        ensures few { length result.now ≤ 9 }
    {
        &self.words[..self.count]
    }

    /// Puts the word behind the others; none where there are nine.
    pub(crate) fn push(&mut self, word: &'a str) -> Option<()>
        ensures { option_map (λ done. plain_seen self.new) result ≡ few_words (plain_seen self.old ++ word.entry.now ∷ []) }
    {
        if self.count == MOST {
            return None;
        }
        self.words[self.count] = word;
        self.count += 1;
        Some(())
    }

    /// Puts the words behind the others; none where there would be more than nine.
    pub(crate) fn push_all(&mut self, words: &'a [String]) -> Option<()>
        ensures { option_map (λ done. plain_seen self.new) result ≡ few_words (plain_seen self.old ++ map string_bytes words.entry.now) }
    {
        for word in words {
            self.push(word.as_str())?;
        }
        Some(())
    }
}
