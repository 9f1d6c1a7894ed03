//! A line of a proof, word by word.

ghost use Rattle.std.specs.Prelude.{◌≡◌, ◌≢◌, ◌∷◌, ◌++◌, [], OnOk, option_to_list};
ghost use Rattle.agreement_check.specs.declared.claims.Claims.{Claims};
ghost use Rattle.agreement_check.specs.declared.claims.Due.TheVariants as due;
ghost use Rattle.agreement_check.specs.declared.line.At.TheVariants as at;
ghost use Rattle.agreement_check.specs.declared.line.Line.{Line};
ghost use Rattle.agreement_check.specs.Standing.{IsAt, due_in};

use crate::claims::{Claims, Due};
use crate::cover::Cover;
use crate::heading::first_word;
use crate::pair::Pair;
use crate::step::{place_in, step_of};
use crate::task::{entry_task, pair_task, rule_task};
use razor_base::Memory;
use std::alloc::Global;
use text_lines::plain_number;

/// Which word of a line is due.
#[derive(Clone, Copy, PartialEq, Eq)]
pub(crate) enum At {
    /// Its first one.
    Start,
    /// One of the first line, behind so many.
    Heading(usize),
    /// The number of a pair's rule, or of its entry.
    Pair,
    /// One of a cover.
    Cover,
    /// The number of pairs.
    Last,
    /// None: the line has another form than one that is due, whatever follows.
    Nothing,
}

/// The words that were taken of a line.
#[derive(Drop)]
pub(crate) struct Line {
    pub(crate) at: At,
    /// The numbers in them, but for those of a cover.
    pub(crate) numbers: Vec<u32>,
    pub(crate) cover: Cover,
}

impl Line {
    ghost use Rattle.std.specs.Prelude.{◌≡◌, ◌≢◌, ◌+◌, ◌^◌, ◌≤◌, ◌<◌, List, ℕ, [], ◌∷◌, ◌++◌, IfOk, OnOk, length};
    ghost use Rattle.agreement_check.specs.declared.claims.Claims.{Claims};
    ghost use Rattle.agreement_check.specs.declared.claims.Due.TheVariants as due;
    ghost use Rattle.agreement_check.specs.declared.claims.Stage.TheVariants as stage;
    ghost use Rattle.agreement_check.specs.declared.line.At.TheVariants as at;
    ghost use Rattle.agreement_check.specs.Standing.{IsAt, IsBehind, IsSound, due_in};

    /// None.
    pub(crate) fn new(alloc: Global) -> Line
        ensures start { result.at ≡ at.Start }
        ensures due { result.cover.due ≡ 0 }
    {
        Line {
            at: At::Start,
            numbers: Vec::new(alloc),
            cover: Cover::none(alloc),
        }
    }

    /// Takes the next word of the line that comes behind these claims.
    pub(crate) fn word(&mut self, claims: &Claims, word: &[u8]) -> Result<(), Memory>
        requires sound { IsSound claims.now }
        requires few { self.old.cover.due < 2 ^ 63 }
        ensures behind { (words : List (List ℕ)) → IsAt claims.now self.old.at self.old words → OnOk result (IsAt claims.now self.new.at self.new (words ++ word.now ∷ [])) }
        ensures further { OnOk result (self.new.at ≢ at.Start) }
        ensures due { self.new.cover.due ≤ self.old.cover.due + 1 }
    {
        self.at = self.behind(claims, word)?;
        Ok(())
    }

    /// Which word is due behind this one.
    fn behind(&mut self, claims: &Claims, word: &[u8]) -> Result<At, Memory>
        requires sound { IsSound claims.now }
        requires few { self.old.cover.due < 2 ^ 63 }
        ensures behind { IsBehind claims.now self.old.at self.old word.now result self.new }
        ensures further { IfOk result (λ next. next ≢ at.Start) }
        ensures due { self.new.cover.due ≤ self.old.cover.due + 1 }
    {
        match self.at {
            At::Start => self.behind_first(claims, word),
            At::Heading(place) => self.behind_heading(place, word),
            At::Pair => self.behind_number(claims, word),
            At::Cover => self.behind_cover(claims, word),
            At::Last => self.behind_last(word),
            At::Nothing => Ok(At::Nothing),
        }
    }

    /// Behind the first word, which says what kind of line it is.
    fn behind_first(&mut self, claims: &Claims, word: &[u8]) -> Result<At, Memory>
        requires sound { IsSound claims.now }
        ensures behind { IfOk result (λ next. IsAt claims.now next self.new (word.now ∷ [])) }
        ensures further { IfOk result (λ next. next ≢ at.Start) }
        ensures due { self.new.cover.due ≤ self.old.cover.due + 1 }
    {
        self.numbers.clear();
        match claims.due() {
            Due::Heading => self.behind_heading(0, word),
            Due::Entry => self.behind_entry(claims, word),
            Due::Rule => self.behind_rule(claims, word),
            Due::Pair => Ok(behind_kind(word)),
            Due::Nothing => Ok(At::Nothing),
        }
    }

    /// Behind a word of the first line, which stands behind so many.
    fn behind_heading(&mut self, place: usize, word: &[u8]) -> Result<At, Memory>
        ensures behind { (c : Claims) → IsBehind c (at.Heading place) self.old word.now result self.new }
        ensures further { IfOk result (λ next. next ≢ at.Start) }
        ensures due { self.new.cover.due ≤ self.old.cover.due + 1 }
    {
        let Some(number) = first_word(place, word) else {
            return Ok(At::Nothing);
        };
        put(&mut self.numbers, number)?;
        Ok(At::Heading(place + 1))
    }

    /// Behind the first word of the line of an entry.
    fn behind_entry(&mut self, claims: &Claims, word: &[u8]) -> Result<At, Memory>
        requires sound { IsSound claims.now }
        requires entry { due_in claims.now ≡ due.Entry }
        ensures behind { IfOk result (λ next. IsAt claims.now next self.new (word.now ∷ [])) }
        ensures further { IfOk result (λ next. next ≢ at.Start) }
        ensures due { self.new.cover.due ≤ self.old.cover.due + 1 }
    {
        if word != b"e".as_slice() {
            return Ok(At::Nothing);
        }
        let task = entry_task(&claims.sides, claims.entries.len() as u32);
        self.cover.begin(&task)?;
        Ok(At::Cover)
    }

    /// Behind the first word of the line of a rule.
    fn behind_rule(&mut self, claims: &Claims, word: &[u8]) -> Result<At, Memory>
        requires sound { IsSound claims.now }
        requires rule { due_in claims.now ≡ due.Rule }
        ensures behind { IfOk result (λ next. IsAt claims.now next self.new (word.now ∷ [])) }
        ensures further { IfOk result (λ next. next ≢ at.Start) }
        ensures due { self.new.cover.due ≤ self.old.cover.due + 1 }
    {
        if word != b"r".as_slice() {
            return Ok(At::Nothing);
        }
        let task = rule_task(&claims.sides, claims.rules.len() as u32);
        self.cover.begin(&task)?;
        Ok(At::Cover)
    }

    /// Behind a number of the line of a pair: first that of its rule.
    fn behind_number(&mut self, claims: &Claims, word: &[u8]) -> Result<At, Memory>
        requires sound { IsSound claims.now }
        ensures behind { IsBehind claims.now at.Pair self.old word.now result self.new }
        ensures further { IfOk result (λ next. next ≢ at.Start) }
        ensures due { self.new.cover.due ≤ self.old.cover.due + 1 }
    {
        match self.numbers.first().copied() {
            Some(rule) => self.behind_second(claims, rule, word),
            None => self.behind_rule_number(claims, word),
        }
    }

    /// Behind the number of a pair's rule.
    fn behind_rule_number(&mut self, claims: &Claims, word: &[u8]) -> Result<At, Memory>
        requires none { self.old.numbers.items ≡ [] }
        ensures behind { IsBehind claims.now at.Pair self.old word.now result self.new }
        ensures further { IfOk result (λ next. next ≢ at.Start) }
        ensures due { self.new.cover.due ≤ self.old.cover.due + 1 }
    {
        let Some(rule) = place_in(claims.sides.rule_count() + 1, word) else {
            return Ok(At::Nothing);
        };
        self.numbers.push(rule)?;
        Ok(At::Pair)
    }

    /// Behind the number of a pair's entry, whose rule is given.
    fn behind_second(&mut self, claims: &Claims, rule: u32, word: &[u8]) -> Result<At, Memory>
        requires sound { IsSound claims.now }
        requires one { (more : List ℕ) × (self.old.numbers.items ≡ rule ∷ more) }
        ensures behind { IsBehind claims.now at.Pair self.old word.now result self.new }
        ensures further { IfOk result (λ next. next ≢ at.Start) }
        ensures due { self.new.cover.due ≤ self.old.cover.due + 1 }
    {
        let Some(entry) = place_in(claims.sides.entry_count() + 1, word) else {
            return Ok(At::Nothing);
        };
        self.numbers.push(entry)?;
        let task = pair_task(&claims.sides, &Pair { rule, entry });
        self.cover.begin(&task)?;
        Ok(At::Cover)
    }

    /// Behind a word of a cover.
    fn behind_cover(&mut self, claims: &Claims, word: &[u8]) -> Result<At, Memory>
        requires sound { IsSound claims.now }
        requires few { self.old.cover.due < 2 ^ 63 }
        ensures behind { IsBehind claims.now at.Cover self.old word.now result self.new }
        ensures further { IfOk result (λ next. next ≢ at.Start) }
        ensures due { self.new.cover.due ≤ self.old.cover.due + 1 }
    {
        let Some(step) = step_of(&claims.terms(), word) else {
            return Ok(At::Nothing);
        };
        if !self.cover.is_due() {
            return Ok(At::Nothing);
        }
        self.cover.take(&claims.sides, step)?;
        Ok(At::Cover)
    }

    /// Behind the number of the last line.
    fn behind_last(&mut self, word: &[u8]) -> Result<At, Memory>
        ensures behind { (c : Claims) → IsBehind c at.Last self.old word.now result self.new }
        ensures further { IfOk result (λ next. next ≢ at.Start) }
        ensures due { self.new.cover.due ≤ self.old.cover.due + 1 }
    {
        if !self.numbers.is_empty() {
            return Ok(At::Nothing);
        }
        let Some(number) = plain_number(word, u32::MAX) else {
            return Ok(At::Nothing);
        };
        self.numbers.push(number)?;
        Ok(At::Last)
    }
}

/// Puts a word's number behind the others, if it gives one.
fn put(numbers: &mut Vec<u32>, number: Option<u32>) -> Result<(), Memory>
    ensures { OnOk result (numbers.new.items ≡ numbers.old.items ++ option_to_list number) }
{
    let Some(number) = number else {
        return Ok(());
    };
    numbers.push(number)?;
    Ok(())
}

/// Behind the first word of the line of a pair, or of the last line.
fn behind_kind(word: &[u8]) -> At
    ensures behind { (c : Claims) (line : Line) → due_in c ≡ due.Pair → line.numbers.items ≡ [] → IsAt c result line (word.now ∷ []) }
    ensures further { result ≢ at.Start }
{
    if word == b"p".as_slice() {
        return At::Pair;
    }
    if word == b"pairs".as_slice() {
        return At::Last;
    }
    At::Nothing
}
