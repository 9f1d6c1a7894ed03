//! What the words of a command that are no options come to.
ghost use Rattle.std.specs.Prelude.{◌≢◌, ◌≤◌, IsTrue};
ghost use Rattle.field_boxes.specs.Spans.{AreInside};
ghost use Rattle.razor_limits.specs.declared.limits.TheConstants.{MOST_RULES};
ghost use Rattle.command_words.specs.Files.{is_script_run};
ghost use Rattle.command_words.specs.PlainWords.{plain_seen};

use crate::plain::PlainWords;
use crate::sizes::Slots;
use field_boxes::Span;

/// Two file words that differ, in their order.
#[derive(Clone, Copy, Debug)]
pub struct TwoFiles<'a> {
    pub first: &'a str,
    pub second: &'a str,
    pub ghost apart: { first.now ≢ second.now },
}

/// Three file words of which no two are equal, in their order.
#[derive(Clone, Copy, Debug)]
pub struct ThreeFiles<'a> {
    pub first: &'a str,
    pub second: &'a str,
    pub third: &'a str,
    pub ghost front: { first.now ≢ second.now },
    pub ghost ends: { first.now ≢ third.now },
    pub ghost back: { second.now ≢ third.now },
}

/// A script and one to eight tables, of which no two have equal words, and the number of slots of the memory.
#[derive(Clone, Copy)]
pub struct ScriptRun<'a> {
    pub slots: Slots,
    pub words: PlainWords<'a>,
    pub ghost run: { IsTrue (is_script_run (plain_seen words)) },
}

/// A list that is to be drawn: the seed, at most 2,147,483,647, and the number of rules, at most 65,536.
#[derive(Clone, Copy, Debug, PartialEq, Eq)]
pub struct Drawing {
    pub seed: u32,
    pub rules: u32,
    pub ghost small: { seed ≤ 2147483647 },
    pub ghost few: { rules ≤ MOST_RULES },
}

/// Where a list is asked for a decision: inside five spans, each within its field. The decision is the text of a
/// name, or `miss` for none.
#[derive(Clone, Copy, Debug)]
pub struct Question<'a> {
    pub list: &'a str,
    pub spans: [Span; 5],
    pub decision: &'a str,
    pub ghost inside: { AreInside spans },
}
