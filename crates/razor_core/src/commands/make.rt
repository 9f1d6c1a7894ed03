//! What `expand`, `compile`, `arrange` and `shorten` share: a list is read, and its table is written.
ghost use Rattle.std.specs.Prelude.{◌≡◌, ◌≢◌, ◌≤◌, ℕ, List, [], ◌∷◌, IfOk, MatchResult, length};
ghost use Rattle.command_words.specs.Commands.{method_seen};
ghost use Rattle.command_words.specs.Settings.{sizes_of};
ghost use Rattle.field_boxes.specs.Lists.{filter_list};
ghost use Rattle.ternary_words.specs.Views.{table_of};
ghost use Rattle.razor_base.specs.Texts.{StaysUnread, left_of};
ghost use Rattle.razor_core.specs.PossibleTexts.{MayBeTexts};
ghost use Rattle.razor_core.specs.Outside.{seen};
ghost use Rattle.razor_core.specs.Ending.{Ends, summary_text};
ghost use Rattle.razor_core.specs.Commands.Make.{IsMade, IsNeeded, IsNotMade, IsOrderOf, IsRoom, made_line, making};
ghost use Rattle.razor_core.specs.Calls.{MakesCalls};
ghost use Rattle.razor_core.specs.Meaning.{at_the_end};

use crate::commands::arrange::arrange_list;
use crate::commands::compile::compile_list;
use crate::commands::expand::expand_list;
use crate::commands::made::Made;
use crate::commands::shorten::shorten_list;
use crate::ending::{Ending, Summary};
use crate::taking::take;
use crate::texts::ListText;
use command_words::{Method, Sizes};
use field_boxes::RuleList;
use razor_base::{Desk, Sink};
use std::alloc::Global;
use table_text::write_table;

/// Writes the table that the method makes of the list.
#[inline(never)]
pub fn make_table<'a, D: Desk, K: Sink>(
    alloc: Global,
    method: Method,
    sizes: Sizes,
    file: &'a str,
    desk: &mut D,
    out: &mut K,
) -> Ending<'a>
    ensures ends { (texts : List ℕ → List ℕ) → MayBeTexts (D.reads desk.new) texts → Ends (making (method_seen method) (sizes_of sizes) file.now)
        (seen (left_of D.reads texts) D.faults K.written K.faults desk.old out.old)
        (seen (left_of D.reads texts) D.faults K.written K.faults desk.new out.new)
        result }
    ensures others { (other : List ℕ) → other ≢ file.now → StaysUnread (D.reads desk.old) (D.reads desk.new) other }
    ensures calls { MakesCalls at_the_end (file.now ∷ []) (D.reads desk.old) (D.reads desk.new) (K.written out.old) (K.written out.new) result }
{
    let list = match take(alloc, &ListText, file, desk) {
        Ok(list) => list,
        Err(ending) => return ending,
    };
    let made = match make_by(alloc, method, &list, sizes) {
        Ok(made) => made,
        Err(ending) => return ending,
    };
    match write_table(&made.table, out) {
        Ok(()) => Ending::Done(summary(&method, &list, made.order)),
        Err(_) => Ending::WriteFault,
    }
}

/// The table that the method makes of the list, or how the command ends.
fn make_by<'a>(
    alloc: Global,
    method: Method,
    list: &RuleList,
    sizes: Sizes,
) -> Result<Made, Ending<'a>>
    ensures made { MatchResult result
        (λ made. IsOrderOf (method_seen method) (filter_list list.now).rules made.order × IsMade (method_seen method) made.order (filter_list list.now).rules (sizes_of sizes) (table_of made.table))
        (λ ending. IsNotMade (IsNeeded (method_seen method) (filter_list list.now).rules) sizes.limit.count ending) }
    ensures names { IfOk result (λ made. made.table.names ≡ list.now.names) }
    ensures room { IfOk result (λ made. IsRoom (method_seen method) (filter_list list.now).rules sizes.limit.count) }
{
    match method {
        Method::Expand => expand_list(alloc, list, sizes),
        Method::Compile => compile_list(alloc, list, sizes),
        Method::Arrange(wanted) => arrange_list(alloc, list, wanted, sizes),
        Method::Shorten(wanted) => shorten_list(alloc, list, wanted, sizes),
    }
}

/// What is said of a list of which the method made a table in the order.
fn summary(method: &Method, list: &RuleList, order: [u8; 5]) -> Summary
    ensures { summary_text result ≡ made_line (method_seen method.now) order (length (filter_list list.now).rules) list.now.flagged }
{
    let rules = list.rules.len() as u64;
    let flagged = list.flagged;
    match method {
        Method::Expand | Method::Compile | Method::Shorten(None) => {
            Summary::Rules { rules, flagged }
        }
        Method::Arrange(_) | Method::Shorten(Some(_)) => Summary::Ordered {
            rules,
            flagged,
            order,
        },
    }
}
