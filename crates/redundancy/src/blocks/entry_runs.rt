//! Neighbouring entries with one span in the first field of a level.
ghost use Rattle.std.specs.Prelude.{◌≡◌, ◌<◌, ◌≤◌, ◌+◌, ◌-◌, ◌/◌, ◌%◌, ◌^◌, ◌++◌, length, map, take, true, IfSome, IfNone, []};
ghost use Rattle.field_boxes.specs.Fields.{greatest_of};
ghost use Rattle.node_store.specs.Levels.{HasField, next, top_of};
ghost use Rattle.field_boxes.specs.Spans.{interval_of};
ghost use Rattle.redundancy_laws.specs.Built.{row_at, span_at};
ghost use Rattle.redundancy_laws.specs.Rows.{in_front};

use field_boxes::Span;
use ternary_words::{Entry, FieldPlace};

/// Entries that have one span in a field, and those behind them.
#[derive(Clone, Copy)]
pub(crate) struct FirstRun<'a> {
    pub span: Span,
    pub run: &'a [Entry],
    pub rest: &'a [Entry],
}

/// The entries at the front that have the first one's span in the level's first field, and the others; none where there
/// are none.
pub(crate) fn first_run<'a>(entries: &'a [Entry], level: &[u8]) -> Option<FirstRun<'a>>
    requires { HasField level.now }
    ensures none { IfNone result (entries.now ≡ []) }
    ensures rows { IfSome result (λ first. map (row_at level.now) entries.now ≡ map (in_front (interval_of first.span)) (map (row_at (next level.now)) first.run.now) ++ map (row_at level.now) first.rest.now) }
    ensures some { IfSome result (λ first. 0 < length first.run.now) }
    ensures shorter { IfSome result (λ first. length first.rest.now < length entries.now) }
    ensures inside { IfSome result (λ first. first.span.hi ≤ top_of level.now) }
{
    let (first, others) = entries.split_first()?;
    let span = span_in(first, level);
    let len = run_len(others, level, span);
    let (run, rest) = entries.split_at(len + 1);
    Some(FirstRun { span, run, rest })
}

/// How many entries at the front have the span in the level's first field.
fn run_len(entries: &[Entry], level: &[u8], span: Span) -> usize
    requires { HasField level.now }
    ensures within { result ≤ length entries.now }
    ensures rows { map (row_at level.now) (take result entries.now) ≡ map (in_front (interval_of span)) (map (row_at (next level.now)) (take result entries.now)) }
{
    for (place, entry) in entries.iter().enumerate() {
        if !has_span(entry, level, span) {
            return place;
        }
    }
    entries.len()
}

/// Whether the entry has the span in the level's first field.
fn has_span(entry: &Entry, level: &[u8], span: Span) -> bool
    requires { HasField level.now }
    ensures { result ≡ true → row_at level.now entry.now ≡ in_front (interval_of span) (row_at (next level.now) entry.now) }
{
    let own = span_in(entry, level);
    own.lo == span.lo && own.hi == span.hi
}

/// The span of the entry in the level's first field.
#[tactic(auto, using(crate::proofs::Gathering::front, crate::proofs::Gathering::inside))]
fn span_in(entry: &Entry, level: &[u8]) -> Span
    requires { HasField level.now }
    ensures row { row_at level.now entry.now ≡ in_front (interval_of result) (row_at (next level.now) entry.now) }
    ensures inside { result.hi ≤ top_of level.now }
{
    field_span(entry, level[0])
}

/// The span of the entry in the field.
fn field_span(entry: &Entry, field: u8) -> Span
    requires { field < 5 }
    ensures span { span_at field entry.now ≡ interval_of result }
    ensures inside { result.hi ≤ greatest_of field }
{
    let place = FieldPlace::of(usize::from(field));
    part_span(entry, place.low, place.width)
}

/// The values that the entry's word matches in its part of so many bits above the lowest ones, where it is a prefix there.
fn part_span(entry: &Entry, low: u8, width: u8) -> Span
    requires low { low ≤ 72 }
    requires wide { width ≤ 32 }
    ensures lo { result.lo ≡ entry.now.word.value / 2 ^ low % 2 ^ width }
    ensures hi { result.hi ≡ entry.now.word.value / 2 ^ low % 2 ^ width + (2 ^ width - 1 - entry.now.word.mask / 2 ^ low % 2 ^ width) }
    ensures inside { result.hi ≤ 2 ^ width - 1 }
{
    let value = part(entry.word.value, low, width);
    let mask = part(entry.word.mask, low, width);
    span_of(value, mask, width)
}

/// So many bits of a number above the lowest ones.
fn part(number: u128, low: u8, width: u8) -> u32
    requires low { low ≤ 72 }
    requires wide { width ≤ 32 }
    ensures { result ≡ number / 2 ^ low % 2 ^ width }
{
    ((number >> low) % (1 << width)) as u32
}

/// From a value to the one with all bits that the mask leaves out.
fn span_of(value: u32, mask: u32, width: u8) -> Span
    requires wide { width ≤ 32 }
    requires masked { value ≤ mask }
    requires small { mask < 2 ^ width }
    ensures lo { result.lo ≡ value }
    ensures hi { result.hi ≡ value + (2 ^ width - 1 - mask) }
    ensures inside { result.hi ≤ 2 ^ width - 1 }
{
    let left_out = (1u64 << width) - 1 - u64::from(mask);
    let hi = u64::from(value) + left_out;
    Span {
        lo: value,
        hi: hi as u32,
    }
}
