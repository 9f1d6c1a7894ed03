//! The ranges of a port column, as far as they are kept.
ghost use Rattle.std.specs.Prelude.{◌≡◌, ℕ, ◌<◌, ◌++◌, ◌∷◌, List, [], length, Some, None, MatchOption, IfOk, IfSome};
ghost use Rattle.field_boxes.specs.Headline.Classifier.{Interval};
ghost use Rattle.field_boxes.specs.Ports.{ArePorts};
ghost use Rattle.filter_reader.specs.Headline.Ports.{ports_of, ranges_of};
ghost use Rattle.filter_reader.specs.Ranges.{SumsUp, capped_range, range_view};
ghost use Rattle.filter_reader.specs.Headline.Tokens.{tokens};

use crate::range::{Range, behind_comma, first_range};
use crate::reason::Reason;
use field_boxes::{Ports, Span, laws};
use razor_base::limits::MOST_RANGES;

/// What is kept of the ranges of a port column.
#[derive(Clone, Copy)]
pub struct Ranges {
    /// The first 16 ranges, each with its lesser number first.
    spans: [Span; MOST_RANGES],
    /// How many ranges there are, or 17 where there are more.
    count: usize,
    /// Whether a range begins above its end.
    reversed: bool,
}

impl Ranges {
    /// No range.
    fn new() -> Ranges
        ensures { SumsUp [] result }
    {
        Ranges {
            spans: [Span { lo: 0, hi: 0 }; MOST_RANGES],
            count: 0,
            reversed: false,
        }
    }

    /// One more range.
    fn push(&mut self, range: Range)
        ensures { (ranges : List Interval) (next : Interval) → SumsUp ranges self.old → range_view range ≡ capped_range next → SumsUp (ranges ++ next ∷ []) self.new }
    {
        self.reversed |= range.hi < range.lo;
        if self.count >= MOST_RANGES {
            self.count = 17;
            return;
        }
        self.spans[self.count] = range.ordered();
        self.count += 1;
    }

    /// The ports in one of the ranges.
    pub fn ports(&self) -> Result<Ports, Reason>
        ensures read { (ranges : List Interval) → 0 < length ranges → SumsUp ranges self.now → result ≡ ports_of ranges }
        ensures ports { IfOk result ArePorts }
    {
        laws::unions_are_values();
        if self.count > MOST_RANGES {
            return Err(Reason::TooManyRanges);
        }
        let Some(ports) = Ports::of(&self.spans[..self.count]) else {
            return Err(Reason::PortRange);
        };
        if self.reversed {
            return Err(Reason::PortOrder);
        }
        Ok(ports)
    }
}

/// The range of a column that has no other, and what stands behind it.
pub fn only_range(line: &[u8]) -> Option<(Range, &[u8])>
    ensures { IfSome result (λ parts. (range : Interval) × (range_view parts.0 ≡ capped_range range) × (ranges_of (tokens line.now) ≡ Some (range ∷ [], tokens parts.1.now))) }
{
    let (range, rest) = first_range(line)?;
    match behind_comma(rest) {
        Some(_) => None,
        None => Some((range, rest)),
    }
}

/// The ranges that the line begins with, and what stands behind them.
pub fn read_ranges(line: &[u8]) -> Option<(Ranges, &[u8])>
    ensures { MatchOption result (ranges_of (tokens line.now) ≡ None)
        (λ parts. (ranges : List Interval) × SumsUp ranges parts.0 × (0 < length ranges) × (ranges_of (tokens line.now) ≡ Some (ranges, tokens parts.1.now))) }
{
    let mut ranges = Ranges::new();
    let mut rest = line;
    'columns: loop {
        let Some((range, after)) = first_range(rest) else {
            return None;
        };
        ranges.push(range);
        match behind_comma(after) {
            Some(next) => rest = next,
            None => return Some((ranges, after)),
        }
    }
}
