//! The two kinds of texts.
ghost use Rattle.std.specs.Prelude.{◌≡◌};
ghost use Rattle.memory_text.specs.MemoryText.{kind_word, lines_word};

/// What a text spells.
#[derive(Clone, Copy, Debug, PartialEq, Eq)]
pub enum TextKind {
    /// What the slots of a memory hold.
    Memory,
    /// Writes to the slots of a memory.
    Plan,
}

impl TextKind {
    /// The word with which the text begins.
    pub(crate) fn word(self) -> &'static str
        ensures { result.now ≡ kind_word self }
    {
        match self {
            TextKind::Memory => "memory",
            TextKind::Plan => "plan",
        }
    }

    /// What the lines behind the first one are.
    pub(crate) fn lines_word(self) -> &'static str
        ensures { result.now ≡ lines_word self }
    {
        match self {
            TextKind::Memory => "entries",
            TextKind::Plan => "writes",
        }
    }
}
