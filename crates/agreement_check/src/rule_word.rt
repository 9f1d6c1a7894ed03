//! The word of a rule: in each field the longest prefix that holds all values of the rule there.
ghost use Rattle.std.specs.Prelude.{◌≡◌, ◌≤◌, ◌<◌, ◌-◌, ◌^◌};
ghost use Rattle.field_boxes.specs.Headline.Prefix.{FitsWidth};
ghost use Rattle.field_boxes.specs.Spans.{intervals_of};
ghost use Rattle.word_cover.specs.Cubes.{cube_of};
ghost use Rattle.agreement_check.specs.RuleWords.{bits_apart, greatest_in_set, least_in_set, prefix_of_set, prefix_round, word_of_rule};

use field_boxes::{Prefix, Rule, Span};
use ternary_words::Word;

/// How many of the lowest bits have to be left out so that both values are the same.
fn bits_apart(width: u8, one: u32, other: u32) -> u8
    requires { width ≤ 32 }
    ensures is { result ≡ bits_apart width one other }
    ensures within { result ≤ width }
{
    for bit in (0..width).rev() {
        if one >> bit != other >> bit {
            return bit + 1;
        }
    }
    0
}

/// The longest prefix of a field of `width` bits that holds both values.
fn prefix_round(width: u8, lo: u32, hi: u32) -> Prefix
    requires width { width ≤ 32 }
    requires small { lo < 2 ^ width }
    ensures is { result ≡ prefix_round width lo hi }
    ensures fits { FitsWidth width result }
{
    let free = bits_apart(width, lo, hi);
    let front = u64::from(lo) >> free;
    Prefix {
        value: (front << free) as u32,
        len: width - free,
    }
}

/// The least value of the spans, which rise.
fn least(spans: &[Span]) -> u32
    ensures { result ≡ least_in_set (intervals_of spans.now) }
{
    match spans.first() {
        Some(span) => span.lo,
        None => 0,
    }
}

/// The greatest value of the spans, which rise.
fn greatest(spans: &[Span]) -> u32
    ensures { result ≡ greatest_in_set (intervals_of spans.now) }
{
    match spans.last() {
        Some(span) => span.hi,
        None => 0,
    }
}

/// The longest prefix of a field of `width` bits that holds all values of the spans, which rise.
fn prefix_of(width: u8, spans: &[Span]) -> Prefix
    requires width { width ≤ 32 }
    requires small { least_in_set (intervals_of spans.now) < 2 ^ width }
    ensures is { result ≡ prefix_of_set width (intervals_of spans.now) }
    ensures fits { FitsWidth width result }
{
    prefix_round(width, least(spans), greatest(spans))
}

/// The word of the rule.
pub fn word_of(rule: &Rule) -> Word
    ensures { cube_of result ≡ word_of_rule rule.now }
{
    let [source, destination, source_port, destination_port, protocol] = rule.sets();
    Word::of(&[
        prefix_of(32, source),
        prefix_of(32, destination),
        prefix_of(16, source_port),
        prefix_of(16, destination_port),
        prefix_of(8, protocol),
    ])
}
