//! A list and a table that are compared. Behind the last rule and the last entry stands an open one, in which every cube
//! lies.

use crate::cube_box::box_of;
use crate::pair::Pair;
use crate::rule_word::word_of;
use crate::valid::Difference;
use field_boxes::{Header, RuleList, first};
use partition_check::{rule_covers, rule_meets, same_name};
use ternary_words::laws::first_match_answers;
use ternary_words::{Table, Word, look};
use word_cover::{all_headers, inside};

/// A list and a table, and the key below which they are compared: 2^104 for all headers.
#[derive(Clone, Copy)]
pub struct Sides<'a> {
    pub list: &'a RuleList,
    pub table: &'a Table,
    pub bound: u128,
}

impl<'a> Sides<'a> {
    ghost use Rattle.std.specs.Prelude.{◌≡◌, ◌≤◌, ◌↔◌, IsTrue, IfSome, MatchOption, length};
    ghost use Rattle.std.specs.Bool.{OnTrue, OnFalse};
    ghost use Rattle.std.specs.List.{position_or_len};
    ghost use Rattle.partition_check.specs.Agreement.{AgreeOn};
    ghost use Rattle.partition_check.specs.Claims.{entry_matches, rule_matches};
    ghost use Rattle.agreement_check.specs.Claims.{DecideAlike, entry_decides, rule_decides};
    ghost use Rattle.agreement_check.specs.Covers.{LiesInRuleAt, MeetsRuleAt, MissesRuleAt, entry_word, rule_word};
    ghost use Rattle.word_cover.specs.Cubes.{HasBitsOf, cube_of};
    ghost use Rattle.agreement_check.specs.Standing.{IsDifferenceOf};
    ghost use Rattle.agreement_check.specs.Views.{sides_in};

    /// How many rules there are, without the open one.
    pub fn rule_count(&self) -> u32
        ensures { result ≡ length self.now.list.now.rules.items }
    {
        self.list.rules.len() as u32
    }

    /// How many entries there are, without the open one.
    pub fn entry_count(&self) -> u32
        ensures { result ≡ length self.now.table.now.entries.items }
    {
        self.table.entries.len() as u32
    }

    /// The word of the rule at the place.
    pub fn rule_word(&self, place: u32) -> Word
        ensures { cube_of result ≡ rule_word self.now.list.now.rules.items place }
    {
        match self.list.rules.get(place as usize) {
            Some(rule) => word_of(rule),
            None => all_headers(),
        }
    }

    /// The word of the entry at the place.
    pub fn entry_word(&self, place: u32) -> Word
        ensures { cube_of result ≡ entry_word self.now.table.now.entries.items place }
    {
        match self.table.entries.get(place as usize) {
            Some(entry) => entry.word,
            None => all_headers(),
        }
    }

    /// Whether the cube lies in the rule at the place.
    pub fn lies_in_rule(&self, place: u32, cube: &Word) -> bool
        ensures { IsTrue result ↔ LiesInRuleAt self.now.list.now.rules.items place (cube_of cube.now) }
    {
        match self.list.rules.get(place as usize) {
            Some(rule) => rule_covers(rule, &box_of(cube)),
            None => true,
        }
    }

    /// Whether the cube meets the rule at the place; else it misses it.
    pub fn meets_rule(&self, place: u32, cube: &Word) -> bool
        ensures yes { OnTrue result (MeetsRuleAt self.now.list.now.rules.items place (cube_of cube.now)) }
        ensures no { OnFalse result (MissesRuleAt self.now.list.now.rules.items place (cube_of cube.now)) }
    {
        match self.list.rules.get(place as usize) {
            Some(rule) => rule_meets(rule, &box_of(cube)),
            None => true,
        }
    }

    /// Whether the cube lies in the entry at the place.
    pub fn lies_in_entry(&self, place: u32, cube: &Word) -> bool
        ensures { IsTrue result ↔ HasBitsOf (cube_of cube.now) (entry_word self.now.table.now.entries.items place) }
    {
        inside(cube, &self.entry_word(place))
    }

    /// What the rule at the place decides; 0, which is no decision, where the open one stands.
    fn rule_decision(&self, place: u32) -> u32
        ensures is { result ≡ rule_decides self.now.list.now.rules.items place }
        ensures within { result ≤ length self.now.list.now.names }
    {
        match self.list.rules.get(place as usize) {
            Some(rule) => rule.decision,
            None => 0,
        }
    }

    /// What the entry at the place decides; 0 where the open one stands.
    fn entry_decision(&self, place: u32) -> u32
        ensures is { result ≡ entry_decides self.now.table.now.entries.items place }
        ensures within { result ≤ length self.now.table.now.names }
    {
        match self.table.entries.get(place as usize) {
            Some(entry) => entry.decision,
            None => 0,
        }
    }

    /// Whether rule and entry decide one name, or none both.
    pub fn decide_alike(&self, pair: &Pair) -> bool
        ensures { IsTrue result ↔ DecideAlike (sides_in self.now) pair.now }
    {
        let left = self.rule_decision(pair.rule);
        let right = self.entry_decision(pair.entry);
        same_name(&self.list.names, left, &self.table.names, right)
    }

    /// What list and table decide on the header, where these are other names.
    pub fn difference_on(&self, header: &Header) -> Option<Difference>
        ensures alike { MatchOption result (AgreeOn self.now.list.now self.now.table.now header.now.values) (λ _. AgreeOn self.now.list.now self.now.table.now header.now.values → ⊥) }
        ensures names { IfSome result (IsDifferenceOf self.now.list.now self.now.table.now) }
        ensures header { IfSome result (λ d. d.header ≡ header.now) }
    {
        first_match_answers();
        let pair = Pair {
            rule: self.first_rule(header),
            entry: self.first_entry(header),
        };
        if self.decide_alike(&pair) {
            return None;
        }
        Some(Difference {
            header: *header,
            left: self.rule_decision(pair.rule),
            right: self.entry_decision(pair.entry),
        })
    }

    /// The place of the first rule that the header matches.
    pub fn first_rule(&self, header: &Header) -> u32
        ensures { result ≡ position_or_len (rule_matches header.now.values) self.now.list.now.rules.items }
    {
        match first(&self.list.rules, header) {
            Some(place) => place as u32,
            None => self.rule_count(),
        }
    }

    /// The place of the first entry that the header matches.
    pub fn first_entry(&self, header: &Header) -> u32
        ensures { result ≡ position_or_len (entry_matches header.now.values) self.now.table.now.entries.items }
    {
        match look(&self.table.entries, header) {
            Some(place) => place as u32,
            None => self.entry_count(),
        }
    }
}
