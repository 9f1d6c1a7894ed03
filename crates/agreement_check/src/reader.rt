//! A proof, byte by byte.
ghost use Rattle.std.specs.Prelude.{◌≡◌, ◌≢◌, ◌^◌, ◌≤◌, ◌<◌, ◌+◌, ◌++◌, ◌∷◌, [], List, ℕ, OnOk, length, take};
ghost use Rattle.agreement_check.specs.declared.line.At.TheVariants as at;
ghost use Rattle.agreement_check.specs.Standing.{IsAt, IsSound};

use crate::claims::Claims;
use crate::line::{At, Line};
use crate::valid::Valid;
use crate::wrong::{Why, Wrong};
use field_boxes::RuleList;
use razor_base::Memory;
use std::alloc::Global;
use ternary_words::Table;

/// As many bytes of an unfinished word as are kept: more than any word of a proof has.
const KEPT: usize = 13;

/// Why a proof isn't taken further: a line is wrong, or memory was refused.
#[derive(Clone, Copy)]
pub(crate) enum Refusal {
    Wrong(Wrong),
    Memory,
}

impl From<Memory> for Refusal {
    ghost use Rattle.std.specs.Prelude.{◌≡◌};
    ghost use Rattle.agreement_check.specs.declared.reader.Refusal.TheVariants as refusals;

    ghost from_gives = { λ _ e. e ≡ refusals.Memory };

    fn from(_refused: Memory) -> Self {
        Refusal::Memory
    }
}

/// A proof of which some bytes were taken.
#[derive(Drop)]
pub(crate) struct Reader<'a> {
    pub(crate) claims: Claims<'a>,
    /// The unfinished line, but for its unfinished word.
    pub(crate) line: Line,
    /// Of that word as many bytes as are kept.
    pub(crate) word: Vec<u8>,
    alloc: Global,
}

impl<'a> Reader<'a> {
    ghost use Rattle.std.specs.Prelude.{◌≡◌, ◌≢◌, ◌+◌, ◌^◌, ◌≤◌, ◌<◌, ◌++◌, ◌∷◌, [], List, ℕ, IfErr, MatchResult, OnOk, length};
    ghost use Rattle.field_boxes.specs.declared.rule_list.RuleList.{RuleList};
    ghost use Rattle.ternary_words.specs.declared.table.Table.{Table};
    ghost use Rattle.partition_check.specs.CertificateText.{lines_of};
    ghost use Rattle.agreement_check.specs.declared.reader.Refusal.TheVariants as refusals;
    ghost use Rattle.agreement_check.specs.Standing.{IfWrong, IsAfter, IsSound, reading_in};
    ghost use Rattle.agreement_check.specs.Stops.{refused};
    ghost use Rattle.agreement_check.specs.Verdict.{FindsWrong, IsUnended, IsValid, lines_taken, started};

    /// None yet.
    pub(crate) fn new(alloc: Global, list: &'a RuleList, table: &'a Table) -> Reader<'a>
        ensures after { IsAfter list.now table.now [] result }
        ensures sound { IsSound result.claims }
        ensures due { result.line.cover.due ≡ 0 }
    {
        Reader {
            claims: Claims::new(alloc, list, table),
            line: Line::new(alloc),
            word: Vec::new(alloc),
            alloc,
        }
    }

    /// Takes the next bytes, up to the first line that is wrong.
    pub(crate) fn take(&mut self, bytes: &[u8]) -> Result<(), Refusal>
        requires sound { IsSound self.old.claims }
        requires few { self.old.line.cover.due + length bytes.now < 2 ^ 63 }
        ensures after { (list : RuleList) (table : Table) (text : List ℕ) → IsAfter list table text self.old → MatchResult result (λ _. IsAfter list table (text ++ bytes.now) self.new)
            (λ e. IfWrong e (FindsWrong list table started (lines_of (text ++ bytes.now)).whole)) }
        ensures sound { OnOk result (IsSound self.new.claims) }
        ensures due { OnOk result (self.new.line.cover.due ≤ self.old.line.cover.due + length bytes.now) }
    {
        for &byte in bytes {
            self.byte(byte)?;
        }
        Ok(())
    }

    /// Takes the next byte.
    fn byte(&mut self, byte: u8) -> Result<(), Refusal>
        requires sound { IsSound self.old.claims }
        requires few { self.old.line.cover.due < 2 ^ 63 }
        ensures after { (list : RuleList) (table : Table) (text : List ℕ) → IsAfter list table text self.old → MatchResult result (λ _. IsAfter list table (text ++ byte ∷ []) self.new)
            (λ e. IfWrong e (FindsWrong list table started (lines_of (text ++ byte ∷ [])).whole)) }
        ensures sound { OnOk result (IsSound self.new.claims) }
        ensures due { OnOk result (self.new.line.cover.due ≤ self.old.line.cover.due + 1) }
    {
        if byte == b'\n' {
            return self.end_line();
        }
        if byte == b' ' {
            self.end_word()?;
            return Ok(());
        }
        self.keep(byte)?;
        Ok(())
    }

    /// Takes a byte of a word.
    fn keep(&mut self, byte: u8) -> Result<(), Memory>
        requires word { byte ≢ 32 }
        requires line { byte ≢ 10 }
        ensures after { (list : RuleList) (table : Table) (text : List ℕ) → IsAfter list table text self.old → OnOk result (IsAfter list table (text ++ byte ∷ []) self.new) }
        ensures same { (self.new.claims ≡ self.old.claims) × (self.new.line ≡ self.old.line) }
    {
        if self.word.len() < KEPT {
            self.word.push(byte)?;
        }
        Ok(())
    }

    /// Takes a space.
    fn end_word(&mut self) -> Result<(), Memory>
        requires sound { IsSound self.old.claims }
        requires few { self.old.line.cover.due < 2 ^ 63 }
        ensures after { (list : RuleList) (table : Table) (text : List ℕ) → IsAfter list table text self.old → OnOk result (IsAfter list table (text ++ 32 ∷ []) self.new) }
        ensures same { self.new.claims ≡ self.old.claims }
        ensures due { self.new.line.cover.due ≤ self.old.line.cover.due + 1 }
    {
        take_word(&mut self.line, &self.claims, &self.word)?;
        self.word.clear();
        Ok(())
    }

    /// Takes a line feed.
    fn end_line(&mut self) -> Result<(), Refusal>
        requires sound { IsSound self.old.claims }
        requires few { self.old.line.cover.due < 2 ^ 63 }
        ensures after { (list : RuleList) (table : Table) (text : List ℕ) → IsAfter list table text self.old → MatchResult result (λ _. IsAfter list table (text ++ 10 ∷ []) self.new)
            (λ e. IfWrong e (FindsWrong list table started (lines_of (text ++ 10 ∷ [])).whole)) }
        ensures sound { OnOk result (IsSound self.new.claims) }
        ensures due { OnOk result (self.new.line.cover.due ≤ self.old.line.cover.due + 1) }
    {
        take_word(&mut self.line, &self.claims, &self.word)?;
        let line = self.claims.line();
        if let Some(why) = self.claims.take(self.alloc, &self.line)? {
            return Err(Refusal::Wrong(Wrong { line, why }));
        }
        self.line.at = At::Start;
        self.word.clear();
        Ok(())
    }

    /// Ends the proof, and gives what it shows.
    pub(crate) fn end(&self) -> Result<Valid, Refusal>
        requires { IsSound self.now.claims }
        ensures verdict { (list : RuleList) (table : Table) (text : List ℕ) → IsAfter list table text self.now → MatchResult result (IsValid list table text)
            (λ e. IfWrong e (IsUnended list table text)) }
        ensures wrong { IfErr result (λ e. e ≢ refusals.Memory) }
    {
        if self.line.at != At::Start || !self.word.is_empty() {
            return Err(self.wrong(Why::Form));
        }
        match self.claims.valid() {
            Some(valid) => Ok(valid),
            None => Err(self.wrong(Why::EndsEarly)),
        }
    }

    /// What is wrong for this reason, in the line that is due.
    fn wrong(&self, why: Why) -> Refusal
        requires { IsSound self.now.claims }
        ensures { result ≡ refused (lines_taken (reading_in self.now.claims) + 1) why }
    {
        Refusal::Wrong(Wrong {
            line: self.claims.line(),
            why,
        })
    }
}

/// Takes the next word of the line, of which these bytes were kept.
fn take_word(line: &mut Line, claims: &Claims, kept: &[u8]) -> Result<(), Memory>
    requires sound { IsSound claims.now }
    requires few { line.old.cover.due < 2 ^ 63 }
    ensures behind { (words : List (List ℕ)) (word : List ℕ) → kept.now ≡ take 13 word → IsAt claims.now line.old.at line.old words →
        OnOk result (IsAt claims.now line.new.at line.new (words ++ word ∷ [])) }
    ensures further { OnOk result (line.new.at ≢ at.Start) }
    ensures due { line.new.cover.due ≤ line.old.cover.due + 1 }
{
    if kept.len() >= KEPT {
        line.at = At::Nothing;
        return Ok(());
    }
    line.word(claims, kept)
}
