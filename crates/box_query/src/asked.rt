//! The rules of a list as a query needs them: cut to the box, and told apart by what is wanted.
ghost use Rattle.std.specs.Prelude.{◌≡◌, ◌≢◌, ◌≤◌, ◌<◌, ℕ, List, length, slice_index_or, if◌then◌else◌, None, option_map, IfOk};
ghost use Rattle.field_boxes.specs.declared.rule.Rule.{Rule as SeenRule};
ghost use Rattle.field_boxes.specs.Boxes.{box_of, box_holds};
ghost use Rattle.field_boxes.specs.Headline.Fields.{stated, IsHeader};
ghost use Rattle.fdd_build.specs.Rules.{decided};
ghost use Rattle.box_query.specs.Asked.{label, number_decided};

use crate::cut::{put_cut, put_rule};
use field_boxes::{Rule, Span};
use razor_base::Memory;
use std::alloc::Global;

/// What stands for a decision: 1 for the wanted one, 2 for any other.
fn label(wanted: u32, decision: u32) -> u32
    ensures { result ≡ label wanted decision }
{
    if decision == wanted { 1 } else { 2 }
}

/// How many rules a query needs: those behind the last one with the wanted decision decide something
/// else. All are needed where no rule is wanted.
fn needed(rules: &[Rule], wanted: u32) -> usize
    ensures within { result ≤ length rules.now }
    ensures all { wanted ≡ 0 → result ≡ length rules.now }
    ensures others { (k : ℕ) (d : SeenRule) → result ≤ k → k < length rules.now → (slice_index_or rules.now k d).decision ≢ wanted }
{
    if wanted == 0 {
        return rules.len();
    }
    let mut count = 0;
    for (place, rule) in rules.iter().enumerate() {
        if rule.decision == wanted {
            count = place + 1;
        }
    }
    count
}

/// The rules, cut to the box, with labels in place of decisions.
fn cut_all(
    alloc: Global,
    rules: &[Rule],
    spans: &[Span; 5],
    wanted: u32,
) -> Result<Vec<Rule>, Memory>
    ensures { IfOk result (λ kept. (header : List ℕ) → IsHeader header → number_decided kept.items header ≡
        (if box_holds (box_of spans.now) header then option_map (label wanted) (number_decided rules.now header) else None)) }
{
    let mut kept = Vec::new(alloc);
    for rule in rules {
        put_cut(alloc, &mut kept, rule, spans, label(wanted, rule.decision))?;
    }
    Ok(kept)
}

/// The rules that decide 1 where the box holds the header and the list decides as wanted, and 2 elsewhere.
pub(crate) fn asked(
    alloc: Global,
    rules: &[Rule],
    spans: &[Span; 5],
    wanted: u32,
) -> Result<Vec<Rule>, Memory>
    ensures { IfOk result (λ asked. (header : List ℕ) → IsHeader header → decided stated asked.items header ≡
        (if box_holds (box_of spans.now) header then label wanted (decided stated rules.now header) else 2)) }
{
    let count = needed(rules, wanted);
    let mut kept = cut_all(alloc, &rules[..count], spans, wanted)?;
    put_cut(alloc, &mut kept, &Rule::open(0), spans, label(wanted, 0))?;
    put_rule(&mut kept, Rule::open(2))?;
    Ok(kept)
}
