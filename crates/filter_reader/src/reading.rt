//! Reading a filter list whole.
ghost use Rattle.std.specs.Prelude.{◌≡◌, IfOk, MatchResult, Ok};
ghost use Rattle.text_lines.specs.Reading.{IsTextRefused};
ghost use Rattle.filter_reader.specs.Headline.FilterList.{list_of};
ghost use Rattle.filter_reader.specs.FirstSeen.{first_seen};
ghost use Rattle.field_boxes.specs.Lists.{filter_list};
ghost use Rattle.filter_reader.specs.OwnNames.{HaveNames};

use crate::reason::ListError;
use crate::take::ListLines;
use field_boxes::{Decisions, RuleList};
use std::alloc::Global;
use text_lines::take_lines;

/// The list that the text spells, or its first bad line with the first reason why it is bad.
///
/// Lines are counted from 1, and skipped lines count. Decisions are numbered in the order in which they
/// are first seen; a rule whose line has no decision word is named `#k`, where k counts the rules from 1.
///
/// It takes time linear in the bytes, and memory for the rules and the names alone.
pub fn read_list(alloc: Global, bytes: &[u8]) -> Result<RuleList, ListError>
    ensures read { MatchResult result
        (λ list. list_of bytes.now ≡ Ok (filter_list list))
        (λ e. IsTextRefused e (list_of bytes.now)) }
    ensures numbers { IfOk result (λ list. list.names ≡ first_seen (filter_list list).rules) }
    ensures names { IfOk result (λ list. HaveNames 1 (filter_list list).rules) }
{
    let mut list = ListLines {
        alloc,
        rules: Vec::new(alloc),
        names: Decisions::new(alloc),
        flagged: 0,
    };
    take_lines(&mut list, bytes)?;
    Ok(RuleList {
        rules: list.rules,
        names: list.names,
        flagged: list.flagged,
    })
}
