//! What was taken of a proof.
ghost use Rattle.std.specs.Prelude.{◌↔◌, IsTrue};
ghost use Rattle.agreement_check.specs.Claims.{ComesNext};

use crate::cover::Cover;
use crate::heading::is_whole;
use crate::join::first_missing;
use crate::line::{At, Line};
use crate::pair::{Pair, comes_before};
use crate::sides::Sides;
use crate::step::Terms;
use crate::valid::{Difference, Shown, Valid};
use crate::wrong::{Counts, Why};
use field_boxes::{Header, RuleList};
use razor_base::Memory;
use std::alloc::Global;
use ternary_words::{Table, key};

/// How far a proof was taken.
#[derive(Clone, Copy, PartialEq, Eq)]
pub(crate) enum Stage {
    /// None of its lines.
    Fresh,
    /// The first line, and some behind it.
    Begun,
    /// All of them.
    Ended,
}

/// Which kind of line is due.
#[derive(Clone, Copy, PartialEq, Eq)]
pub(crate) enum Due {
    Heading,
    Entry,
    Rule,
    /// That of a pair, or the last line.
    Pair,
    Nothing,
}

/// What the lines of a proof claim that were taken.
#[derive(Drop)]
pub(crate) struct Claims<'a> {
    pub(crate) sides: Sides<'a>,
    pub(crate) stage: Stage,
    pub(crate) difference: Option<Difference>,
    /// For each entry how many of the first rules its cover reaches.
    pub(crate) entries: Vec<u32>,
    /// For each rule how many of the first entries its cover reaches.
    pub(crate) rules: Vec<u32>,
    pub(crate) pairs: Vec<Pair>,
}

impl<'a> Claims<'a> {
    ghost use Rattle.std.specs.Prelude.{◌≡◌, ◌≢◌, ◌≤◌, ◌+◌, ◌<◌, ℕ, List, [], ◌∷◌, false, Some, Ok, IfOk, MatchOption, OnOk, length};
    ghost use Rattle.field_boxes.specs.Headline.Fields.{IsHeader};
    ghost use Rattle.agreement_check.specs.declared.claims.Due.TheVariants as due;
    ghost use Rattle.agreement_check.specs.declared.claims.Stage.TheVariants as stage;
    ghost use Rattle.agreement_check.specs.declared.pair.Pair.{Pair};
    ghost use Rattle.agreement_check.specs.declared.step.Step.{Step};
    ghost use Rattle.agreement_check.specs.declared.wrong.Why.TheVariants as whys;
    ghost use Rattle.agreement_check.specs.Claims.{entry_claim, pair_claim, rule_claim};
    ghost use Rattle.agreement_check.specs.Covering.{StandsFor};
    ghost use Rattle.agreement_check.specs.Joins.{IsFirstOf};
    ghost use Rattle.agreement_check.specs.Standing.{IsAt, IsCoverFront, IsSound, Judges, JudgesClaim, JudgesHeading, KeepsSides, StatesHeader, claim_due_in, due_in, header_of, heading_at, list_in, own_sides, reading_in, table_in, taken_in, terms_in};
    ghost use Rattle.agreement_check.specs.Texts.{entry_line, heading_by, last_line, pair_line, rule_line};
    ghost use Rattle.agreement_check.specs.Verdict.{IsShown, all_of, counts_of, lines_taken, started};

    /// None yet.
    pub(crate) fn new(alloc: Global, list: &'a RuleList, table: &'a Table) -> Claims<'a>
        ensures sides { (list_in result ≡ list.now) × (table_in result ≡ table.now) }
        ensures reading { reading_in result ≡ started }
        ensures sound { IsSound result }
    {
        Claims {
            sides: Sides {
                list,
                table,
                bound: 1 << 104,
            },
            stage: Stage::Fresh,
            difference: None,
            entries: Vec::new(alloc),
            rules: Vec::new(alloc),
            pairs: Vec::new(alloc),
        }
    }

    /// The number, from 1, of the line that is due.
    pub(crate) fn line(&self) -> u64
        requires { IsSound self.now }
        ensures { result ≡ lines_taken (reading_in self.now) + 1 }
    {
        let entries = self.entries.len() as u64;
        let claims = entries + self.rules.len() as u64 + self.pairs.len() as u64;
        match self.stage {
            Stage::Fresh => 1,
            Stage::Begun => claims + 2,
            Stage::Ended => claims + 3,
        }
    }

    /// What the proof shows, if its last line was taken.
    pub(crate) fn valid(&self) -> Option<Valid>
        requires { IsSound self.now }
        ensures { MatchOption result ((reading_in self.now).ended ≡ false) (λ v. (reading_in self.now ≡ all_of (taken_in self.now)) × (v.pairs ≡ length self.now.pairs.items)
            × IsShown (list_in self.now) (table_in self.now) (header_of self.now.difference) v.shown) }
    {
        match self.stage {
            Stage::Ended => Some(Valid {
                shown: self.shown(),
                pairs: self.pairs.len() as u64,
            }),
            _ => None,
        }
    }

    /// What the first line says that the proof shows.
    fn shown(&self) -> Shown
        requires { IsSound self.now }
        ensures { IsShown (list_in self.now) (table_in self.now) (header_of self.now.difference) result }
    {
        match self.difference {
            Some(difference) => Shown::Differ(difference),
            None => Shown::Equal,
        }
    }

    /// Which kind of line is due.
    pub(crate) fn due(&self) -> Due
        ensures { result ≡ due_in self.now }
    {
        match self.stage {
            Stage::Fresh => Due::Heading,
            Stage::Begun => self.claim_due(),
            Stage::Ended => Due::Nothing,
        }
    }

    /// Which kind of line is due behind the first one.
    fn claim_due(&self) -> Due
        ensures { result ≡ claim_due_in self.now }
    {
        if self.entries.len() <= self.sides.table.entries.len() {
            return Due::Entry;
        }
        if self.rules.len() <= self.sides.list.rules.len() {
            return Due::Rule;
        }
        Due::Pair
    }

    /// Which words the cover of the line may have that is due.
    pub(crate) fn terms(&self) -> Terms
        ensures { result ≡ terms_in self.now }
    {
        let rules = self.sides.rule_count();
        let entries = self.sides.entry_count();
        Terms {
            rules: rules + 1,
            entries: entries + 1,
            missed: self.claim_due() != Due::Entry,
            late: self.difference.is_some(),
        }
    }

    /// Takes the line, or says why it is wrong.
    pub(crate) fn take(&mut self, alloc: Global, line: &Line) -> Result<Option<Why>, Memory>
        requires sound { IsSound self.old }
        ensures judged { (words : List (List ℕ)) → words ≢ [] → IsAt self.old line.now.at line.now words → IfOk result (λ why. Judges self.old words why self.new) }
        ensures sound { OnOk result (IsSound self.new) }
        ensures sides { KeepsSides self.old self.new }
    {
        match line.at {
            At::Heading(words) => Ok(self.take_heading(words, &line.numbers)),
            At::Cover => self.take_cover(&line.numbers, &line.cover),
            At::Last => self.take_last(alloc, &line.numbers),
            At::Start | At::Pair | At::Nothing => Ok(Some(Why::Form)),
        }
    }

    /// Takes a first line of so many words, in which these numbers stand.
    fn take_heading(&mut self, words: usize, numbers: &[u32]) -> Option<Why>
        requires sound { IsSound self.old }
        ensures judged { self.old.stage ≡ stage.Fresh → StatesHeader (heading_at words numbers.now) → JudgesHeading self.old (heading_at words numbers.now) result self.new }
        ensures sound { IsSound self.new }
        ensures sides { KeepsSides self.old self.new }
    {
        if !is_whole(words) {
            return Some(Why::Form);
        }
        match *numbers {
            [rules, entries] => self.take_counts(Counts { rules, entries }),
            [
                rules,
                entries,
                source,
                destination,
                source_port,
                destination_port,
                protocol,
            ] => {
                let values = [source, destination, source_port, destination_port, protocol];
                self.take_difference(Counts { rules, entries }, values)
            }
            _ => Some(Why::Form),
        }
    }

    /// Takes a first line that states no header.
    fn take_counts(&mut self, stated: Counts) -> Option<Why>
        requires sound { IsSound self.old }
        ensures judged { self.old.stage ≡ stage.Fresh → JudgesHeading self.old (heading_by (stated.rules ∷ stated.entries ∷ [])) result self.new }
        ensures sound { IsSound self.new }
        ensures sides { KeepsSides self.old self.new }
    {
        if let Some(why) = self.other_counts(stated) {
            return Some(why);
        }
        self.stage = Stage::Begun;
        None
    }

    /// Takes a first line that states this header.
    fn take_difference(&mut self, stated: Counts, values: [u32; 5]) -> Option<Why>
        requires sound { IsSound self.old }
        ensures judged { self.old.stage ≡ stage.Fresh → IsHeader values → JudgesHeading self.old (Some (record { rules = stated.rules; entries = stated.entries; before = Some values })) result self.new }
        ensures sound { IsSound self.new }
        ensures sides { KeepsSides self.old self.new }
    {
        if let Some(why) = self.other_counts(stated) {
            return Some(why);
        }
        let Some(header) = Header::new(values) else {
            return Some(Why::Form);
        };
        let Some(difference) = self.sides.difference_on(&header) else {
            return Some(Why::DecidedAlike);
        };
        self.sides.bound = key(header.values);
        self.difference = Some(difference);
        self.stage = Stage::Begun;
        None
    }

    /// Why the counts are wrong, if they aren't those of list and table.
    fn other_counts(&self, stated: Counts) -> Option<Why>
        ensures { MatchOption result (stated ≡ counts_of (list_in self.now) (table_in self.now))
            (λ why. (why ≡ whys.CountsDiffer stated (counts_of (list_in self.now) (table_in self.now))) × (stated ≢ counts_of (list_in self.now) (table_in self.now))) }
    {
        let found = Counts {
            rules: self.sides.rule_count(),
            entries: self.sides.entry_count(),
        };
        if stated == found {
            return None;
        }
        Some(Why::CountsDiffer { stated, found })
    }

    /// Takes a line with this cover, behind these numbers.
    fn take_cover(&mut self, numbers: &[u32], cover: &Cover) -> Result<Option<Why>, Memory>
        requires sound { IsSound self.old }
        ensures judged { (words : List (List ℕ)) → self.old.stage ≡ stage.Begun → IsCoverFront self.old (claim_due_in self.old) numbers.now cover.now words →
            IfOk result (λ why. Judges self.old words why self.new) }
        ensures sound { OnOk result (IsSound self.new) }
        ensures sides { KeepsSides self.old self.new }
    {
        if cover.is_due() {
            return Ok(Some(Why::Form));
        }
        match self.due() {
            Due::Entry => self.take_entry(cover),
            Due::Rule => self.take_rule(cover),
            Due::Pair => self.take_pair(numbers, cover),
            Due::Heading | Due::Nothing => Ok(Some(Why::Form)),
        }
    }

    /// Takes the line of an entry.
    fn take_entry(&mut self, cover: &Cover) -> Result<Option<Why>, Memory>
        requires sound { IsSound self.old }
        requires entry { due_in self.old ≡ due.Entry }
        requires whole { cover.now.due ≡ 0 }
        ensures judged { (steps : List Step) → self.old.stage ≡ stage.Begun → StandsFor (own_sides self.old) (entry_claim (own_sides self.old) (length self.old.entries.items)) steps cover.now →
            IfOk result (λ why. JudgesClaim self.old (entry_line steps) why self.new) }
        ensures sound { OnOk result (IsSound self.new) }
        ensures sides { KeepsSides self.old self.new }
    {
        if !cover.holds {
            return Ok(Some(Why::EntryCover));
        }
        self.entries.push(cover.rules)?;
        Ok(None)
    }

    /// Takes the line of a rule.
    fn take_rule(&mut self, cover: &Cover) -> Result<Option<Why>, Memory>
        requires sound { IsSound self.old }
        requires rule { due_in self.old ≡ due.Rule }
        requires whole { cover.now.due ≡ 0 }
        ensures judged { (steps : List Step) → self.old.stage ≡ stage.Begun → StandsFor (own_sides self.old) (rule_claim (own_sides self.old) (length self.old.rules.items)) steps cover.now →
            IfOk result (λ why. JudgesClaim self.old (rule_line steps) why self.new) }
        ensures sound { OnOk result (IsSound self.new) }
        ensures sides { KeepsSides self.old self.new }
    {
        if !cover.holds {
            return Ok(Some(Why::RuleCover));
        }
        self.rules.push(cover.entries)?;
        Ok(None)
    }

    /// Takes the line of the pair with these numbers.
    fn take_pair(&mut self, numbers: &[u32], cover: &Cover) -> Result<Option<Why>, Memory>
        requires sound { IsSound self.old }
        requires pair { due_in self.old ≡ due.Pair }
        requires whole { cover.now.due ≡ 0 }
        ensures judged { (i j : ℕ) (steps : List Step) → numbers.now ≡ i ∷ j ∷ [] → self.old.stage ≡ stage.Begun →
            StandsFor (own_sides self.old) (pair_claim (own_sides self.old) (record { rule = i; entry = j })) steps cover.now →
            IfOk result (λ why. JudgesClaim self.old (pair_line (record { rule = i; entry = j }) steps) why self.new) }
        ensures sound { OnOk result (IsSound self.new) }
        ensures sides { KeepsSides self.old self.new }
    {
        let [rule, entry] = *numbers else {
            return Ok(Some(Why::Form));
        };
        let pair = Pair { rule, entry };
        if !comes_next(&self.pairs, &pair) {
            return Ok(Some(Why::Order));
        }
        if !cover.holds {
            return Ok(Some(Why::PairCover));
        }
        self.pairs.push(pair)?;
        Ok(None)
    }

    /// Takes the last line, with this number.
    fn take_last(&mut self, alloc: Global, numbers: &[u32]) -> Result<Option<Why>, Memory>
        requires sound { IsSound self.old }
        ensures judged { (k : ℕ) → numbers.now ≡ k ∷ [] → self.old.stage ≡ stage.Begun → IfOk result (λ why. JudgesClaim self.old (last_line k) why self.new) }
        ensures form { numbers.now ≡ [] → result ≡ Ok (Some whys.Form) }
        ensures sound { OnOk result (IsSound self.new) }
        ensures sides { KeepsSides self.old self.new }
    {
        let [stated] = *numbers else {
            return Ok(Some(Why::Form));
        };
        if let Some(pair) = first_missing(alloc, self)? {
            return Ok(Some(Why::PairMissing {
                rule: pair.rule + 1,
                entry: pair.entry + 1,
            }));
        }
        let found = self.pairs.len() as u64;
        if u64::from(stated) != found {
            return Ok(Some(Why::PairsDiffer { stated, found }));
        }
        self.stage = Stage::Ended;
        Ok(None)
    }
}

/// Whether the pair comes behind the last of the others.
fn comes_next(pairs: &[Pair], pair: &Pair) -> bool
    ensures { IsTrue result ↔ ComesNext pairs.now pair.now }
{
    match pairs.last() {
        Some(last) => comes_before(last, pair),
        None => true,
    }
}
