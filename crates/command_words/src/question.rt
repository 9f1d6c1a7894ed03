//! What is asked of a list.
ghost use Rattle.std.specs.Prelude.{◌≡◌, ◌≤◌, ◌∷◌, [], List, ℕ, Option, IfSome};
ghost use Rattle.std.specs.Option.{option_map};
ghost use Rattle.field_boxes.specs.Headline.Classifier.{Interval};
ghost use Rattle.field_boxes.specs.Spans.{AreInside, interval_of, intervals_of};
ghost use Rattle.command_words.specs.Commands.{Command};
ghost use Rattle.command_words.specs.PlainWords.{plain_seen};
ghost use Rattle.command_words.specs.Questions.{asking, is_decision, is_own_name, name_in, span_asked, span_written, spans_asked};

use crate::number::number_between;
use crate::operands::Question;
use crate::plain::PlainWords;
use field_boxes::{Span, decision_word, greatest};
use razor_base::limits::MOST_RULES;
use text_lines::split_once;

/// The values from one number to another, no greater than the greatest.
#[tactic(auto, unfolding(crate::specs::Questions::span_written))]
fn span_written(word: &[u8], greatest: u32) -> Option<Span>
    ensures span { option_map interval_of result ≡ span_written greatest word.now }
    ensures within { IfSome result (λ span. span.hi ≤ greatest) }
{
    let (lo, hi) = split_once(word, b'-')?;
    let lo = number_between(lo, 0, greatest)?;
    let hi = number_between(hi, lo, greatest)?;
    Some(Span { lo, hi })
}

/// All values up to the greatest for `*`, or a span of them.
#[tactic(auto, unfolding(crate::specs::Questions::span_asked))]
fn span_asked(word: &[u8], greatest: u32) -> Option<Span>
    ensures span { option_map interval_of result ≡ span_asked greatest word.now }
    ensures within { IfSome result (λ span. span.hi ≤ greatest) }
{
    if word == b"*".as_slice() {
        return Some(Span {
            lo: 0,
            hi: greatest,
        });
    }
    span_written(word, greatest)
}

/// The spans of the five fields.
fn spans_asked(
    source: &str,
    destination: &str,
    from: &str,
    to: &str,
    protocol: &str,
) -> Option<[Span; 5]>
    ensures spans { option_map intervals_of result ≡ spans_asked 0 (source.now ∷ destination.now ∷ from.now ∷ to.now ∷ protocol.now ∷ []) }
    ensures inside { IfSome result AreInside }
{
    Some([
        span_asked(source.as_bytes(), greatest(0))?,
        span_asked(destination.as_bytes(), greatest(1))?,
        span_asked(from.as_bytes(), greatest(2))?,
        span_asked(to.as_bytes(), greatest(3))?,
        span_asked(protocol.as_bytes(), greatest(4))?,
    ])
}

/// Whether the word is the name that a rule without a decision word has: `#` and its number.
fn own_name(word: &[u8]) -> bool
    ensures { result ≡ is_own_name word.now }
{
    match word {
        [b'#', first, ..] => *first != b'0' && number_between(&word[1..], 1, MOST_RULES).is_some(),
        _ => false,
    }
}

/// Whether the word is `miss`, or the name of a decision.
#[tactic(auto, unfolding(crate::specs::Questions::is_decision))]
fn is_decision(word: &[u8]) -> bool
    ensures { result ≡ is_decision word.now }
{
    word == b"miss".as_slice() || decision_word(word) || own_name(word)
}

/// What the words ask: a list, five spans and a decision.
pub(crate) fn question_of<'a>(words: &PlainWords<'a>) -> Option<Question<'a>>
    ensures { (make : List ℕ → List Interval → Option (List ℕ) → Command) →
        option_map (λ question. make question.list.now (intervals_of question.spans) (name_in question.decision.now)) result ≡ asking make (plain_seen words.now) }
{
    let &[list, source, destination, from, to, protocol, decision] = words.as_slice() else {
        return None;
    };
    let spans = spans_asked(source, destination, from, to, protocol)?;
    if !is_decision(decision.as_bytes()) {
        return None;
    }
    Some(Question {
        list,
        spans,
        decision,
    })
}
